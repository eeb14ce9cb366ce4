//! Blocks that are decided from files to files.

use crate::script::play;

// Blocks are decided one after another.
const BLOCKS: &str =
    r#"# Two blocks are decided, one message after another, and an audit finds them the same.
put book BOOK
put file TWO_BLOCKS
0 switch blocks book file replies after
> decided 2 in 2 blocks
is replies TWO_REPLIES
is after AFTER_BOTH
0 switch audit-blocks book file replies after
> same

# Two blocks are decided by one worker, and an audit finds them the same.
put book BOOK
put file TWO_BLOCKS
0 switch blocks --workers=1 book file replies after
> decided 2 in 2 blocks
is replies TWO_REPLIES
is after AFTER_BOTH
0 switch audit-blocks book file replies after
> same

# Two blocks are decided, by the locked engine, and an audit finds them the same.
put book BOOK
put file TWO_BLOCKS
0 switch blocks book file replies after --engine locked
> decided 2 in 2 blocks
is replies TWO_REPLIES
is after AFTER_BOTH
0 switch audit-blocks book file replies after
> same

# Two blocks are decided, by the split engine, and an audit finds them the same.
put book BOOK
put file TWO_BLOCKS
0 switch blocks book file replies after --engine split
> decided 2 in 2 blocks
is replies TWO_REPLIES
is after AFTER_BOTH
0 switch audit-blocks book file replies after
> same

# A file without blocks leaves the book.
put book BOOK
put file 'I83M 000100000000
0 switch blocks book file replies after
> decided 0 in 0 blocks
is replies 'I83T 000100000000
is after BOOK
0 switch audit-blocks book file replies after
> same

# A file without blocks leaves the book, also by the split engine.
put book BOOK
put file 'I83M 000100000000
0 switch blocks book file replies after --engine split
> decided 0 in 0 blocks
is replies 'I83T 000100000000
is after BOOK
0 switch audit-blocks book file replies after
> same
"#;

#[test]
fn blocks_are_decided_one_after_another(rt: HostRuntime) {
    play(&rt, rt.alloc(), BLOCKS);
}

// Blocks of texts.
const PACKED: &str =
    r#"# Texts are packed, a block of each, also of one without a body, and shown block by block.
put one '31 '32 0a
put nothing '# 0a
put two '33 '34 0a '35 0a
0 switch pack --blocks one nothing two file
> packed 3 in 3 blocks
is file 'I83M 000100000003 00000001 0002 '12 00000000 00000002 0002 '34 0001 '5
0 switch show file
> block 0
> 0 F01000
> block 1
> block 2
> 0 F01000
> 1 F01000
0 switch pack one file --blocks
> packed 1 in 1 blocks
is file 'I83M 000100000001 00000001 0002 '12
1 switch pack --blocks one lost none
! file 1
! lost: no such file or directory
none none

# Two blocks and their replies are shown.
put file TWO_BLOCKS
put replies TWO_REPLIES
0 switch show file
> block 0
> 0 1100 6000 000001
> block 1
> 0 1100 6000 000002
0 switch show replies
> block 0
> 0 1110 000 000001 000001
> block 1
> 0 1110 116 - 000002

# A file of blocks that ends within one, and one of their replies with a body that is none.
put file 'I83M 000100000001 00000001 0001
put replies 'I83T 000100000001 00000001 0006 'F10000
1 switch show file
! batch 5
! file: block 0, body 0 at byte 14: the file ends within it, 0 of 1 bodies are whole
1 switch show replies
! batch 9
! replies: block 0, body 0 at byte 14: the text of no reply and of no fault
"#;

#[test]
fn texts_are_packed_in_blocks_and_shown(rt: HostRuntime) {
    play(&rt, rt.alloc(), PACKED);
}

// A fault keeps the blocks before it.
const HALTS: &str = r#"# 1,001 blocks.
put book BOOK
put file 'I83M 0001000003e9
put after 'older
1 switch blocks book file replies after
! batch 10
! kept 0
! file: byte 6: 1001 blocks, where at most 1000 are allowed
is replies
is after BOOK

# A batch in their place.
put book BOOK
put file 'I83B
put after 'older
1 switch blocks book file replies after
! batch 1
! kept 0
! file: it begins with I83B, the letters of a batch, where I83M is to be
is replies
is after BOOK

# The second of two blocks is not there.
put book BOOK
put file 'I83M 000100000002 00000001 BATCH+10
put after 'older
1 switch blocks book file replies after
! batch 5
! kept 1
! file: block 1 at byte 114: the file ends within its count, 1 of 2 blocks are whole
is replies 'I83T 000100000002 00000001 REPLIES+10
is after AFTER

# A byte behind the last block.
put book BOOK
put file TWO_BLOCKS '!
put after 'older
1 switch blocks book file replies after
! batch 6
! kept 2
! file: byte 218: too many bytes behind the last body: 1
is replies TWO_REPLIES
is after AFTER_BOTH

# With --strict no block is kept behind a fault.
put book BOOK
put file 'I83M 000100000002 00000001 BATCH+10
put replies 'yesterday
put after 'older
1 switch blocks book file replies after --strict
! batch 5
! file: block 1 at byte 114: the file ends within its count, 1 of 2 blocks are whole
is replies 'yesterday
is after 'older

# A body of three letters is no message: it is answered and counted, or refused.
put book BOOK
put file 'I83M 000100000001 00000001 0003 'abc
put replies 'yesterday
put after 'older
1 switch blocks book file replies after --strict
! unreadable 1
is replies 'yesterday
is after 'older
0 switch blocks book file replies after
> decided 1 in 1 blocks, 1 unreadable
is replies 'I83T 000100000001 00000001 0006 'F01000
is after BOOK

# Where no block can be begun, no line says how many are kept, and an older book stays: no book, and no file.
put book '[
put file TWO_BLOCKS
put after 'older
1 switch blocks book file replies after
! book 1
! book: line 1, column 1: no JSON
none replies
is after 'older
put book BOOK
1 switch blocks book none replies after
! file 1
! none: no such file or directory
none replies
is after 'older
"#;

#[test]
fn a_fault_keeps_the_blocks_before_it(rt: HostRuntime) {
    play(&rt, rt.alloc(), HALTS);
}
