//! Journals that no core kept, and what enters none.

use crate::journal_answers::frames_of;
use crate::journal_scripts::waits;
use issuer_rows::{Book, Frame};
use std::alloc::Global;
use std::test::Fail;
use stm_core_laws::{CoreFault, Limits, Seat};
use stm_journal::{CoreAnswer, Event, ReplayFault, Traced, read_journal, replay};
use stm_memory::Version;
use stm_scheduler::Task;
use test_fixtures::{body, first_book_with};

// Journals, and the first entry that can't be played again: a finish whose version didn't log each row that the table needs.
const PLAYED: &[(&[u8], Option<ReplayFault>)] = &[
    (b"", None),
    (
        b"0 n\n\
0 r 0.0 card:4111110000000005\n\
0 f 0.0\n",
        Some(ReplayFault::Unlogged(3)),
    ),
    (
        b"0 n\n\
0 r 0.0 orig:123456:000001:260110120000\n\
0 r 0.0 card:4111110000000005\n\
0 r 0.0 acct:34313131313130303030303030303035\n\
0 r 0.0 day:4111110000000005:260110\n\
0 r 0.0 budget:411111\n\
0 f 0.0\n\
1 n\n\
1 n\n\
1 f 1.0\n\
2 f 2.0\n",
        Some(ReplayFault::Unlogged(10)),
    ),
    // Invalid entries are refused when they are played again as they were before, and lead on.
    (
        b"0 f 0.0\n\
1 f 7.0\n\
2 r 0.0 budget:411111\n\
3 b 1.0 0\n\
4 c 0.0\n\
5 o\n\
63 e\n\
0 k\n\
0 n\n",
        None,
    ),
];

fn fault_of(alloc: Global, book: &Book, frames: &[Frame; 3], text: &[u8]) -> Option<ReplayFault> {
    match read_journal(alloc, text) {
        Ok(entries) => replay(alloc, book, frames, &entries).err(),
        Err(fault) => Some(fault),
    }
}

// The place of the first journal that is played otherwise.
fn first_wrong(alloc: Global, book: &Book, frames: &[Frame; 3]) -> Option<usize> {
    for (place, (text, fault)) in PLAYED.iter().enumerate() {
        if fault_of(alloc, book, frames, text) != *fault {
            return Some(place);
        }
    }
    None
}

#[test]
fn a_row_that_was_not_logged(rt: HostRuntime) -> Result<(), Fail> {
    let book = first_book_with(rt.alloc(), &[])?;
    let frames = frames_of(&waits().bodies).expect(&rt, "three requests");
    let wrong = first_wrong(rt.alloc(), &book, &frames);
    assert!(rt; wrong.is_none(), "journal {wrong:?}");
    Ok(())
}

const FIRST: Version = Version {
    index: 0,
    incarnation: 0,
};

// A claim that nothing is handed out for enters nothing; a refusal does.
fn enters_what_it_should(traced: &mut Traced, seat: Seat) -> bool {
    let claimed = traced.step(seat, Event::Claim);
    let first = traced.entries().len();
    let idle = traced.step(seat, Event::Claim);
    let second = traced.entries().len();
    let validated = traced.step(seat, Event::ValidateOne);
    let third = traced.entries().len();
    matches!(claimed, CoreAnswer::Claimed(Task::Execute(version)) if version == FIRST)
        & matches!(idle, CoreAnswer::Claimed(Task::Idle))
        & matches!(validated, CoreAnswer::Refused(CoreFault::NotRunning))
        & ((first, second, third) == (1, 1, 2))
}

const LIMITS: Limits = Limits {
    incarnation: 4,
    epoch: 3,
};

fn one_request() -> Option<[Frame; 1]> {
    Some([body(waits().bodies[0])?])
}

// Whether a core of one request and of these limits enters what it should.
fn enters(alloc: Global, book: &Book) -> Option<bool> {
    let frames = one_request()?;
    let mut traced = Traced::with_limits(alloc, book, &frames, LIMITS).ok()?;
    let has_limits = traced.core().limits() == LIMITS;
    Some(has_limits & enters_what_it_should(&mut traced, Seat::first()))
}

#[test]
fn an_idle_claim_enters_nothing(rt: HostRuntime) -> Result<(), Fail> {
    let book = first_book_with(rt.alloc(), &[])?;
    assert!(rt; enters(rt.alloc(), &book) == Some(true));
    Ok(())
}
