//! Journals of three requests on card A, and what they play to.

/// A journal, and what it plays to.
#[derive(Clone, Copy)]
pub(crate) struct JournalScript {
    /// The three requests.
    pub(crate) bodies: [&'static str; 3],
    /// The journal.
    pub(crate) text: &'static [u8],
    /// What the claims are answered, and why calls are refused, in order.
    pub(crate) told: &'static [&'static str],
    /// The epoch, the floors of three messages and one more, and the stamps, at the end.
    pub(crate) epoch: u64,
    pub(crate) floors: [u64; 4],
    pub(crate) stamps: [Option<u64>; 3],
    /// Actions and approval codes.
    pub(crate) answers: [&'static str; 3],
    /// The account then.
    pub(crate) account: &'static str,
}

// The second request reads the opening book before the first one is recorded, fails its validation and is decided again; the third one
// meets its ESTIMATE meanwhile, and waits for it.
const WAITS: &JournalScript = &JournalScript {
    bodies: [
        "1100 000001 A 100",
        "1100 000002 A 100",
        "1100 000003 A 100",
    ],
    text: b"\
0 n\n\
1 n\n\
1 r 1.0 orig:123456:000002:260110120000\n\
1 r 1.0 card:4111110000000005\n\
1 r 1.0 acct:34313131313130303030303030303035\n\
1 r 1.0 day:4111110000000005:260110\n\
1 r 1.0 budget:411111\n\
1 f 1.0\n\
0 r 0.0 orig:123456:000001:260110120000\n\
0 r 0.0 card:4111110000000005\n\
0 r 0.0 acct:34313131313130303030303030303035\n\
0 r 0.0 day:4111110000000005:260110\n\
0 r 0.0 budget:411111\n\
0 f 0.0\n\
2 n\n\
2 c 0.0\n\
2 o\n\
2 o\n\
2 o\n\
2 o\n\
2 o\n\
2 e\n\
1 n\n\
1 c 1.0\n\
1 o\n\
1 o\n\
1 e\n\
0 n\n\
2 n\n\
2 r 2.0 orig:123456:000003:260110120000\n\
2 r 2.0 card:4111110000000005\n\
2 b 2.0 1\n\
0 r 1.1 orig:123456:000002:260110120000\n\
0 r 1.1 card:4111110000000005\n\
0 r 1.1 acct:34313131313130303030303030303035\n\
0 r 1.1 day:4111110000000005:260110\n\
0 r 1.1 budget:411111\n\
0 f 1.1\n\
0 c 1.1\n\
0 o\n\
0 o\n\
0 o\n\
0 o\n\
0 o\n\
0 e\n\
2 n\n\
2 r 2.1 orig:123456:000003:260110120000\n\
2 r 2.1 card:4111110000000005\n\
2 r 2.1 acct:34313131313130303030303030303035\n\
2 r 2.1 day:4111110000000005:260110\n\
2 r 2.1 budget:411111\n\
2 f 2.1\n\
2 n\n\
2 c 2.1\n\
2 o\n\
2 o\n\
2 o\n\
2 o\n\
2 o\n\
2 e\n\
0 k\n\
0 k\n\
0 k\n\
0 k\n\
0 n\n\
",
    told: &[
        "execute 0.0",
        "execute 1.0",
        "validate 0.0",
        "validate 1.0",
        "execute 1.1",
        "execute 2.0",
        "execute 2.1",
        "validate 2.1",
        "done",
    ],
    epoch: 5,
    floors: [0, 3, 4, 5],
    stamps: [Some(3), Some(4), Some(5)],
    answers: ["000/000001", "000/000002", "000/000003"],
    account: "account A 9700 978",
};

// The first request takes all. The second one read the opening book, and writes no card when it is decided again. A validation of the
// third one fails meanwhile, is left open, and ends when all is committed.
const COMES_LATE: &JournalScript = &JournalScript {
    bodies: [
        "1100 000001 A 10000",
        "1100 000002 A 100",
        "1100 000003 A 1",
    ],
    text: b"\
0 n\n\
1 n\n\
2 n\n\
1 r 1.0 orig:123456:000002:260110120000\n\
1 r 1.0 card:4111110000000005\n\
1 r 1.0 acct:34313131313130303030303030303035\n\
1 r 1.0 day:4111110000000005:260110\n\
1 r 1.0 budget:411111\n\
0 r 0.0 orig:123456:000001:260110120000\n\
0 r 0.0 card:4111110000000005\n\
0 r 0.0 acct:34313131313130303030303030303035\n\
0 r 0.0 day:4111110000000005:260110\n\
0 r 0.0 budget:411111\n\
0 f 0.0\n\
2 r 2.0 orig:123456:000003:260110120000\n\
2 r 2.0 card:4111110000000005\n\
2 r 2.0 acct:34313131313130303030303030303035\n\
2 r 2.0 day:4111110000000005:260110\n\
2 r 2.0 budget:411111\n\
2 f 2.0\n\
1 f 1.0\n\
0 n\n\
1 n\n\
2 n\n\
2 c 2.0\n\
2 o\n\
2 o\n\
0 c 0.0\n\
0 o\n\
0 o\n\
0 o\n\
0 o\n\
0 o\n\
0 e\n\
1 c 1.0\n\
1 o\n\
1 o\n\
1 e\n\
0 n\n\
0 r 1.1 orig:123456:000002:260110120000\n\
0 r 1.1 card:4111110000000005\n\
0 r 1.1 acct:34313131313130303030303030303035\n\
0 r 1.1 day:4111110000000005:260110\n\
0 r 1.1 budget:411111\n\
0 f 1.1\n\
0 c 1.1\n\
0 o\n\
0 o\n\
0 o\n\
0 o\n\
0 o\n\
0 e\n\
1 n\n\
1 c 2.0\n\
1 o\n\
1 o\n\
1 o\n\
1 o\n\
1 o\n\
1 e\n\
0 k\n\
0 k\n\
0 k\n\
2 e\n\
",
    told: &[
        "execute 0.0",
        "execute 1.0",
        "execute 2.0",
        "validate 0.0",
        "validate 1.0",
        "validate 2.0",
        "execute 1.1",
        "validate 2.0",
        "outdated",
    ],
    epoch: 5,
    floors: [0, 2, 5, 3],
    stamps: [Some(4), Some(5), Some(5)],
    answers: ["000/000001", "116", "116"],
    account: "account A 0 978",
};

/// The second request reads the opening book before the first one is recorded, and is decided again; the third one waits for it.
pub(crate) fn waits() -> &'static JournalScript {
    WAITS
}

/// The first request takes all, so that the second one writes other rows when it is decided again; a validation of the third one is stale
/// when it ends.
pub(crate) fn comes_late() -> &'static JournalScript {
    COMES_LATE
}
