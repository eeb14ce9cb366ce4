//! Batches that are decided from files to files, packed and shown, and files that are not there.

use crate::script::play;

// A request is decided by each command that decides a batch.
const DECIDED: &str = r#"# A batch is decided one message after another.
put book BOOK
put batch BATCH
0 switch serial book batch replies after
> decided 1
is replies REPLIES
is after AFTER
is book BOOK

# A batch is decided by four workers.
put book BOOK
put batch BATCH
0 switch run book batch replies after
> decided 1
is replies REPLIES
is after AFTER
is book BOOK

# A batch is decided by one worker.
put book BOOK
put batch BATCH
0 switch run book batch replies after --workers 1
> decided 1
is replies REPLIES
is after AFTER
is book BOOK

# A batch is decided by sixty-four workers.
put book BOOK
put batch BATCH
0 switch run --workers=64 book batch replies after
> decided 1
is replies REPLIES
is after AFTER
is book BOOK

# A batch is decided by the split engine.
put book BOOK
put batch BATCH
0 switch run book batch replies after --engine split
> decided 1
is replies REPLIES
is after AFTER
is book BOOK

# A batch is decided in parts.
put book BOOK
put batch BATCH
0 switch run book batch replies after --engine parts
> decided 1
is replies REPLIES
is after AFTER
is book BOOK

# A book of more rows than a batch may need is the same behind each engine.
put book DAY_BOOK
put batch BATCH
0 switch serial book batch replies after
> decided 1
put answers
put later
0 switch run book batch answers later --engine locked
> decided 1
is answers replies
is later after
put answers
put later
0 switch run book batch answers later --engine split
> decided 1
is answers replies
is later after
put answers
put later
0 switch run book batch answers later --engine parts
> decided 1
is answers replies
is later after

# Each reply repeats its message, an advice's and a reversal's too.
put book BOOK
put batch 'I83B 000100000002 0065 '1120 7230010102808000 '164111110000000005000000 '000000000100 '0110120000000002260110120000 '10006123456000TERM0001978 0082 '1420 7230010100808100 '164111110000000005000000 '000000000100 '0110120000000003260110120000 '40006123456TERM0001978 '30112000000226011012000006123456
0 switch serial book batch replies after
> decided 2
is replies 'I83R 000100000002 0063 'R1130 7230000102808000 '164111110000000005000000 '000000000100 '0110120000000002260110120000 '06123456901TERM0001978 0063 'R1430 7230000102808000 '164111110000000005000000 '000000000100 '0110120000000003260110120000 '06123456400TERM0001978

# A repeat to a later run is answered alike, and changes nothing.
put book AFTER
put batch 'I83B 000100000001 0062 '1101 7230010100808000 '164111110000000005000000 '000000000100 '0110120000 '000001260110120000 '10006123456TERM0001978
0 switch serial book batch replies after
> decided 1
is replies REPLIES
is after AFTER

# A text is packed.
put text TEXT
put wrong '# 20 'none 0a '3g 0a
0 switch pack text batch
> packed 1
is batch BATCH
1 switch pack wrong none
! text 2
! wrong: line 2: column 2: no hexadecimal digit
1 switch pack lost none
! file 1
! lost: no such file or directory
none none

# Texts are packed into one batch, in their order; the first one that is wrong, or isn't there, is told.
put one '31 '32 0a
put two '# 0a '33 '34
put nothing '# 0a
put wrong '# 20 'none 0a '3g 0a
0 switch pack one nothing two one batch
> packed 3
is batch 'I83B 000100000003 0002 '12 0002 '34 0002 '12
1 switch pack one wrong lost none
! text 2
! wrong: line 2: column 2: no hexadecimal digit
put noted '31 0a '# 0a
1 switch pack noted wrong none
! text 2
! wrong: line 2: column 2: no hexadecimal digit
1 switch pack one lost wrong none
! file 1
! lost: no such file or directory
none none

# A batch is none of the texts that it is made of.
put one '31 '32 0a
put two '33 '34 0a
2 switch pack one two one
! BATCH and TEXT are one file: one
2 switch pack --blocks one two two
! BATCH and TEXT are one file: two
is one '31 '32 0a
is two '33 '34 0a

# Files are shown.
put batch BATCH
put replies REPLIES
put text TEXT
0 switch show batch
> 0 1100 100 000001
0 switch show replies
> 0 1110 000 000001 000001
1 switch show text
! batch 1
! text: it doesn't begin with I83B, the letters of a batch
1 switch show lost
! file 1
! lost: no such file or directory
"#;

#[test]
fn a_batch_is_packed_decided_and_shown(rt: HostRuntime) {
    play(&rt, rt.alloc(), DECIDED);
}

// A file that is not there.
const MISSING: &str = r#"# No book of this name, and no batch.
put book BOOK
put batch BATCH
1 switch serial none batch replies after
! file 1
! none: no such file or directory
none replies
none after
1 switch serial book none replies after
! file 1
! none: no such file or directory
none replies
none after

# No book.
put batch BATCH
1 switch serial book batch replies after
! file 1
! book: no such file or directory
1 switch run book batch replies after
! file 1
! book: no such file or directory
1 switch audit book batch replies after
! file 1
! book: no such file or directory

# No batch, then no replies, then no book after it.
put book BOOK
1 switch serial book batch replies after
! file 1
! batch: no such file or directory
1 switch run book batch replies after
! file 1
! batch: no such file or directory
1 switch audit book batch replies after
! file 1
! batch: no such file or directory
put batch BATCH
1 switch audit book batch replies after
! file 1
! replies: no such file or directory
put replies REPLIES
1 switch audit book batch replies after
! file 1
! after: no such file or directory
"#;

#[test]
fn a_file_that_is_not_there_is_told(rt: HostRuntime) {
    play(&rt, rt.alloc(), MISSING);
}
