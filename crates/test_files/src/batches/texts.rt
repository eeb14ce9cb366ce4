//! Files byte for byte: a request of 1.00 on the first book, its reply, and files that are none.

use file_batch::BatchFault;

// A batch of no bodies, and its replies.
pub(crate) const EMPTY: &[u8] = b"I83B\x00\x01\x00\x00\x00\x00";

pub(crate) const EMPTY_REPLIES: &[u8] = b"I83R\x00\x01\x00\x00\x00\x00";

// A batch of one request: 110 bytes.
pub(crate) const BATCH: &[u8] =
    b"I83B\x00\x01\x00\x00\x00\x01\x00\x621100\x72\x30\x01\x01\x00\x80\x80\x00164111110000000005000000000000000100011012000000000126011012000010006123456TERM0001978";

// Its replies: 117 bytes.
pub(crate) const REPLIES: &[u8] =
    b"I83R\x00\x01\x00\x00\x00\x01\x00\x69R1110\x72\x30\x00\x01\x06\x80\x80\x00164111110000000005000000000000000100011012000000000126011012000006123456000001000TERM0001978";

// The batch whose request is one byte short, and its replies.
pub(crate) const SHORT: &[u8] =
    b"I83B\x00\x01\x00\x00\x00\x01\x00\x611100\x72\x30\x01\x01\x00\x80\x80\x00164111110000000005000000000000000100011012000000000126011012000010006123456TERM000197";

pub(crate) const SHORT_REPLIES: &[u8] = b"I83R\x00\x01\x00\x00\x00\x01\x00\x06F01049";

// Batches that are none, each with its first fault: one byte; a byte behind the body; another mark; another version; 65,537
// bodies, with what follows and with nothing; a body of no byte; and one of 513.
pub(crate) const BAD_BATCHES: &[(&[u8], BatchFault)] = &[
    (b"J", BatchFault::Ended),
    (
        b"I83B\x00\x01\x00\x00\x00\x01\x00\x621100\x72\x30\x01\x01\x00\x80\x80\x00164111110000000005000000000000000100011012000000000126011012000010006123456TERM0001978\x00",
        BatchFault::Trailing,
    ),
    (
        b"J83B\x00\x01\x00\x00\x00\x01\x00\x621100\x72\x30\x01\x01\x00\x80\x80\x00164111110000000005000000000000000100011012000000000126011012000010006123456TERM0001978",
        BatchFault::Magic,
    ),
    (
        b"I83B\x00\x02\x00\x00\x00\x01\x00\x621100\x72\x30\x01\x01\x00\x80\x80\x00164111110000000005000000000000000100011012000000000126011012000010006123456TERM0001978",
        BatchFault::Version,
    ),
    (
        b"I83B\x00\x01\x00\x01\x00\x01\x00\x621100\x72\x30\x01\x01\x00\x80\x80\x00164111110000000005000000000000000100011012000000000126011012000010006123456TERM0001978",
        BatchFault::Count,
    ),
    (b"I83B\x00\x01\x00\x01\x00\x01", BatchFault::Count),
    (
        b"I83B\x00\x01\x00\x00\x00\x01\x00\x001100\x72\x30\x01\x01\x00\x80\x80\x00164111110000000005000000000000000100011012000000000126011012000010006123456TERM0001978",
        BatchFault::Length,
    ),
    (b"I83B\x00\x01\x00\x00\x00\x01\x02\x01", BatchFault::Length),
];

// Replies that are none, each with the place of the first body that is no reply. They are the reply with `S` for `R`, with a letter in
// its bitmap, and with one in its currency; and, behind a fault, digits that no fault has.
pub(crate) const BAD_REPLIES: &[(&[u8], BatchFault)] = &[
    (
        b"I83R\x00\x01\x00\x00\x00\x01\x00\x69S1110\x72\x30\x00\x01\x06\x80\x80\x00164111110000000005000000000000000100011012000000000126011012000006123456000001000TERM0001978",
        BatchFault::Body(0),
    ),
    (
        b"I83R\x00\x01\x00\x00\x00\x01\x00\x69R1110\x72\x30\x00x\x06\x80\x80\x00164111110000000005000000000000000100011012000000000126011012000006123456000001000TERM0001978",
        BatchFault::Body(0),
    ),
    (
        b"I83R\x00\x01\x00\x00\x00\x01\x00\x69R1110\x72\x30\x00\x01\x06\x80\x80\x00164111110000000005000000000000000100011012000000000126011012000006123456000001000TERM000197x",
        BatchFault::Body(0),
    ),
    (
        b"I83R\x00\x01\x00\x00\x00\x02\x00\x06F01000\x00\x06F10000",
        BatchFault::Body(1),
    ),
    (
        b"I83R\x00\x01\x00\x00\x00\x02\x00\x06F01000\x00\x06F02001",
        BatchFault::Body(1),
    ),
    (
        b"I83R\x00\x01\x00\x00\x00\x02\x00\x06F01000\x00\x06F01256",
        BatchFault::Body(1),
    ),
    (
        b"I83R\x00\x01\x00\x00\x00\x02\x00\x06F01000\x00\x06F0100:",
        BatchFault::Body(1),
    ),
];
