//! Whole batches through a core that comes to no second incarnation or epoch.

use engine_locked::run_with_limits;
use engine_workers::{NoHook, Workers};
use issuer_fold::RunOutcome;
use issuer_rows::{Book, Frame};
use issuer_rules::Shipped;
use std::alloc::Global;
use std::process::Abort;
use std::sync::Wait;
use std::thread::Threads;
use stm_core_laws::Limits;
use test_fixtures::{first_wrong, frames, opening, worked};

// The bodies, decided by four workers at the first incarnations and the first epoch.
fn outcome_of<R: Threads + Wait + Sync>(
    rt: &R,
    alloc: Global,
    book: &Book,
    frames: &[Frame],
) -> Option<RunOutcome> {
    let limits = Limits {
        incarnation: 0,
        epoch: 1,
    };
    let workers = Workers::new(4)?;
    if frames.len() <= 64 {
        run_with_limits(rt, alloc, book, frames, workers, limits, &Shipped, &NoHook).ok()
    } else {
        None
    }
}

fn assert_runs<R: Abort + Threads + Wait + Sync>(rt: &R, alloc: Global, batch: &str) {
    let book = opening(alloc, batch).expect(rt, "a book");
    let frames = frames(alloc, batch).expect(rt, "bodies");
    let outcome = outcome_of(rt, alloc, &book, &frames).expect(rt, "room");
    let wrong = first_wrong(alloc, batch, &outcome.replies, &outcome.book);
    assert!(rt; wrong.is_none(), "{wrong:?} of {batch}");
}

// What the core can't commit without a second incarnation or epoch is decided one after another.
#[test]
fn runs_where_no_second_incarnation_is_left(rt: HostRuntime) {
    for batch in worked().split("\n\n") {
        assert_runs(&rt, rt.alloc(), batch);
    }
}
