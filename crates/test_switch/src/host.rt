//! The program over the host's files: nothing is lost, whatever the names are of and whoever runs beside.

use crate::host_stage::HostStage;
use crate::script::play_on;

const DECIDED: &str =
    r#"# A batch is decided and audited; new files are their owner's alone, and nothing else stays.
put decided/book BOOK
put decided/batch BATCH
0 switch serial decided/book decided/batch decided/replies decided/after
> decided 1
is decided/replies REPLIES
is decided/after AFTER
moded decided/replies 600
moded decided/after 600
count 4
0 switch audit decided/book decided/batch decided/replies decided/after
> same
count 4

# By the engines, with a journal; in place; and an older file keeps its mode.
put decided/book BOOK
put decided/batch BATCH
put decided/replies 'older
mode decided/book 640
mode decided/replies 644
0 switch run decided/book decided/batch decided/replies decided/after --journal decided/journal
> decided 1
is decided/replies REPLIES
is decided/after AFTER
0 switch audit decided/book decided/batch decided/replies decided/after --journal decided/journal
> same
0 switch run decided/book decided/batch decided/replies decided/book --engine split
> decided 1
is decided/book AFTER
is decided/replies REPLIES
moded decided/book 640
moded decided/replies 644
count 5

# Blocks, and a text that is packed.
put decided/book BOOK
put decided/file TWO_BLOCKS
put decided/text TEXT
0 switch blocks decided/book decided/file decided/replies decided/after
> decided 2 in 2 blocks
is decided/replies TWO_REPLIES
is decided/after AFTER_BOTH
0 switch audit-blocks decided/book decided/file decided/replies decided/after
> same
0 switch pack decided/text decided/batch
> packed 1
is decided/batch BATCH
count 6
end decided
"#;

#[test]
fn files_are_put_in_place_whole(rt: HostRuntime) {
    play_on(&rt, rt.alloc(), HostStage::new(rt, "decided"), DECIDED);
}

const NAMES: &str = r#"# Replies under the name that a new book had beside it are no loss.
put names/book BOOK
put names/batch BATCH
0 switch serial names/book names/batch names/after.partial names/after
> decided 1
is names/after.partial REPLIES
is names/after AFTER

# Two names of one file are refused before it is opened: equal words, another way to it, links.
put names/book BOOK
put names/batch BATCH
2 switch serial names/book names/batch names/batch names/after
! REPLIES and the batch are one file: names/batch
is names/batch BATCH
2 switch serial names/book names/batch names/r names/./r
! REPLIES and NEWBOOK are one file: names/./r
2 switch serial names/book names/batch names/book names/after
! REPLIES and BOOK are one file: names/book
2 switch run names/book names/batch names/replies names/after --journal names/book
! the journal and BOOK are one file: names/book
2 switch run names/book names/batch names/replies names/after --journal names/after
! the journal and NEWBOOK are one file: names/after
2 switch run names/book names/batch names/replies names/batch
! NEWBOOK and the batch are one file: names/batch
2 switch pack names/batch names/batch
! BATCH and TEXT are one file: names/batch
link names/link batch
same names/other names/batch
2 switch serial names/book names/batch names/link names/after
! REPLIES and the batch are one file: names/batch
2 switch serial names/book names/batch names/other names/after
! REPLIES and the batch are one file: names/batch
is names/batch BATCH
is names/book BOOK
count 4

# The book may be replaced by a link's way; the link stays one.
put names/book BOOK
put names/batch BATCH
link names/link book
0 switch serial names/link names/batch names/replies names/link
> decided 1
is names/book AFTER
is names/link AFTER
count 4
end names
"#;

#[test]
fn names_of_one_file_are_refused(rt: HostRuntime) {
    play_on(&rt, rt.alloc(), HostStage::new(rt, "names"), NAMES);
}

const REFUSED: &str = r#"# A batch that is none empties no older replies and leaves no new file.
put refused/book BOOK
put refused/batch 'none
put refused/replies 'older
put refused/after 'older
1 switch run refused/book refused/batch refused/replies refused/after
! batch 1
! refused/batch: it doesn't begin with I83B, the letters of a batch
is refused/replies 'older
is refused/after 'older
1 switch serial refused/book refused/batch refused/r refused/n
! batch 1
! refused/batch: it doesn't begin with I83B, the letters of a batch
count 4

# A new book that can't be made leaves the replies as they were: no folder, a folder of its name, a file that may not be written.
put refused/book BOOK
put refused/batch BATCH
put refused/replies 'older
1 switch run refused/book refused/batch refused/replies refused/no/after
! file 2
! refused/no/after: no such file or directory
folder refused/after
1 switch serial refused/book refused/batch refused/replies refused/after
! file 2
! refused/after: is a directory
put refused/kept 'older
mode refused/kept 444
1 switch run refused/book refused/batch refused/replies refused/kept --engine split
! file 2
! refused/kept: permission denied
link refused/astray nowhere
1 switch serial refused/book refused/batch refused/replies refused/astray
! file 2
! refused/astray: no such file or directory
is refused/replies 'older
is refused/kept 'older
count 6

# A file that isn't there, and a folder in place of one.
1 switch serial refused/none refused/batch refused/replies refused/after
! file 1
! refused/none: no such file or directory
count 0
end refused
"#;

#[test]
fn a_fault_leaves_all_files_as_they_were(rt: HostRuntime) {
    play_on(&rt, rt.alloc(), HostStage::new(rt, "refused"), REFUSED);
}

const CLAIMED: &str = r#"# What another run writes is in use; when that ends, it is not.
put claimed/book BOOK
put claimed/batch BATCH
put claimed/text TEXT
claim claimed/after
1 switch serial claimed/book claimed/batch claimed/replies claimed/after
! file 3
! claimed/after: in use by another run
1 switch run claimed/book claimed/batch claimed/after claimed/book
! file 3
! claimed/after: in use by another run
1 switch blocks claimed/book claimed/batch claimed/replies claimed/after
! file 3
! claimed/after: in use by another run
1 switch audit claimed/book claimed/batch claimed/replies claimed/after
! file 3
! claimed/after: in use by another run
1 switch pack claimed/text claimed/after
! file 3
! claimed/after: in use by another run
release all
count 3
claim claimed/book
1 switch run claimed/book claimed/batch claimed/replies claimed/book --journal claimed/journal
! file 3
! claimed/book: in use by another run
release all
0 switch run claimed/book claimed/batch claimed/replies claimed/book --journal claimed/journal
> decided 1
is claimed/book AFTER
count 5

# What a run left that was killed is taken away; what a stranger has under such a name stays.
put claimed/book BOOK
put claimed/batch BATCH
put claimed/.after.switch-0 'left
put claimed/.after.switch-lock '.after.switch-0
put claimed/.replies.switch-0 'a_stranger's
put claimed/.replies.switch-lock 'too
0 switch serial claimed/book claimed/batch claimed/replies claimed/after
> decided 1
is claimed/after AFTER
is claimed/replies REPLIES
none claimed/.after.switch-0
none claimed/.after.switch-lock
is claimed/.replies.switch-0 'a_stranger's
is claimed/.replies.switch-lock 'too
count 6
end claimed
"#;

#[test]
fn one_run_at_a_time_writes_a_file(rt: HostRuntime) {
    play_on(&rt, rt.alloc(), HostStage::new(rt, "claimed"), CLAIMED);
}
