//! Batches and replies that are none, told by number, place and reason.

use crate::script::play;

// Batches and replies that are none. An older file of the new book stays.
const BAD_BATCHES: &str = r#"# One byte.
put book BOOK
put batch 'J
put after 'older
1 switch serial book batch replies after
! batch 5
! batch: it ends within its head, which has 10 bytes
is after 'older
1 switch run book batch replies after
! batch 5
! batch: it ends within its head, which has 10 bytes
is after 'older
put replies REPLIES
put after AFTER
1 switch audit book batch replies after
! batch 5
! batch: it ends within its head, which has 10 bytes
1 switch show batch
! batch 5
! batch: it ends within its head, which has 10 bytes

# Another mark.
put book BOOK
put batch 'J83B 000100000000
put after 'older
1 switch serial book batch replies after
! batch 1
! batch: it doesn't begin with I83B, the letters of a batch
is after 'older
1 switch run book batch replies after
! batch 1
! batch: it doesn't begin with I83B, the letters of a batch
is after 'older
put replies REPLIES
put after AFTER
1 switch audit book batch replies after
! batch 1
! batch: it doesn't begin with I83B, the letters of a batch
1 switch show batch
! batch 1
! batch: it doesn't begin with I83B, the letters of a batch

# Another version.
put book BOOK
put batch 'I83B 000200000000
put after 'older
1 switch serial book batch replies after
! batch 2
! batch: byte 4: version 2, where 1 is read
is after 'older
1 switch run book batch replies after
! batch 2
! batch: byte 4: version 2, where 1 is read
is after 'older
put replies REPLIES
put after AFTER
1 switch audit book batch replies after
! batch 2
! batch: byte 4: version 2, where 1 is read
1 switch show batch
! batch 2
! batch: byte 4: version 2, where 1 is read

# 65,537 bodies.
put book BOOK
put batch 'I83B 000100010001
put after 'older
1 switch serial book batch replies after
! batch 3
! batch: byte 6: 65537 bodies, where at most 65536 are allowed
is after 'older
1 switch run book batch replies after
! batch 3
! batch: byte 6: 65537 bodies, where at most 65536 are allowed
is after 'older
put replies REPLIES
put after AFTER
1 switch audit book batch replies after
! batch 3
! batch: byte 6: 65537 bodies, where at most 65536 are allowed
1 switch show batch
! batch 3
! batch: byte 6: 65537 bodies, where at most 65536 are allowed

# A body of no byte.
put book BOOK
put batch 'I83B 000100000001 0000
put after 'older
1 switch serial book batch replies after
! batch 4
! batch: body 0 at byte 10: length 0, where 1 to 512 is allowed
is after 'older
1 switch run book batch replies after
! batch 4
! batch: body 0 at byte 10: length 0, where 1 to 512 is allowed
is after 'older
put replies REPLIES
put after AFTER
1 switch audit book batch replies after
! batch 4
! batch: body 0 at byte 10: length 0, where 1 to 512 is allowed
1 switch show batch
! batch 4
! batch: body 0 at byte 10: length 0, where 1 to 512 is allowed

# A body of 513 bytes.
put book BOOK
put batch 'I83B 000100000001 0201
put replies REPLIES
put after AFTER
1 switch audit book batch replies after
! batch 4
! batch: body 0 at byte 10: length 513, where 1 to 512 is allowed
1 switch show batch
! batch 4
! batch: body 0 at byte 10: length 513, where 1 to 512 is allowed

# A body that ends early.
put book BOOK
put batch 'I83B 000100000001 0002 '!
put replies REPLIES
put after AFTER
1 switch audit book batch replies after
! batch 5
! batch: body 0 at byte 10: the file ends within it, 0 of 1 bodies are whole
1 switch show batch
! batch 5
! batch: body 0 at byte 10: the file ends within it, 0 of 1 bodies are whole

# A byte behind the last body.
put book BOOK
put batch 'I83B 000100000000 '!
put after 'older
1 switch serial book batch replies after
! batch 6
! batch: byte 10: too many bytes behind the last body: 1
is after 'older
1 switch run book batch replies after
! batch 6
! batch: byte 10: too many bytes behind the last body: 1
is after 'older
put replies REPLIES
put after AFTER
1 switch audit book batch replies after
! batch 6
! batch: byte 10: too many bytes behind the last body: 1
1 switch show batch
! batch 6
! batch: byte 10: too many bytes behind the last body: 1

# Replies that are none: no byte; a batch; too many; a byte behind the last one; a body that is no reply.
put book BOOK
put batch BATCH
put after AFTER
put replies
1 switch audit book batch replies after
! batch 5
! replies: it ends within its head, which has 10 bytes
put replies 'I83B 000100000000
1 switch audit book batch replies after
! batch 1
! replies: it begins with I83B, the letters of a batch, where I83R is to be
put replies 'I83R 000100010001
1 switch audit book batch replies after
! batch 3
! replies: byte 6: 65537 bodies, where at most 65536 are allowed
put replies 'I83R 000100000000 '!
1 switch audit book batch replies after
! batch 6
! replies: byte 10: too many bytes behind the last body: 1
put replies 'I83R 000100000001 0002 'R!
1 switch audit book batch replies after
! batch 9
! replies: body 0 at byte 10: the text of no reply and of no fault
1 switch show replies
! batch 9
! replies: body 0 at byte 10: the text of no reply and of no fault
"#;

#[test]
fn a_bad_batch_is_told_by_its_number(rt: HostRuntime) {
    play(&rt, rt.alloc(), BAD_BATCHES);
}
