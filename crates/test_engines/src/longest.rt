//! The longest batch through both engines, with 1, 4 and 64 workers.

use crate::deciding::decided_by;
use engine_workers::{Engine, NoHook};
use issuer_fold::RunOutcome;
use issuer_rows::ReplyBody;
use issuer_rules::Shipped;
use std::alloc::Global;
use std::process::Abort;
use std::sync::Wait;
use std::test::Fail;
use std::thread::Threads;
use std::time::Clock;
use test_fixtures::{count_of, first_book_with, has_row, is_answer, requests};

// Whether three requests are approved, and then the day's limit is reached.
fn are_longest(alloc: Global, replies: &[ReplyBody]) -> bool {
    if replies.len() < 3 {
        return false;
    }
    is_answer(alloc, &replies[0], "000/000001")
        & is_answer(alloc, &replies[1], "000/000002")
        & is_answer(alloc, &replies[2], "000/000003")
        & (count_of(alloc, replies, "123") == 65_533)
}

// Whether the workers committed every message of the longest batch.
fn is_longest(alloc: Global, outcome: &RunOutcome) -> bool {
    are_longest(alloc, &outcome.replies)
        & has_row(&outcome.book, "account A 9997 978")
        & (outcome.committed == 65_536)
}

// The longest batch: the same replies with each engine and each number of workers.
fn assert_runs_the_longest<R: Abort + Clock + Threads + Wait + Sync>(
    rt: &R,
    alloc: Global,
    engine: Engine,
    workers: u32,
) -> Result<(), Fail> {
    let book = first_book_with(alloc, &[])?;
    let frames = requests(alloc, 65_536)?;
    assert!(rt; frames.len() == 65_536);
    let decided = decided_by(
        rt,
        alloc,
        (engine, workers),
        &book,
        &frames,
        &Shipped,
        &NoHook,
    );
    let outcome = decided.expect(rt, "room");
    assert!(rt; is_longest(alloc, &outcome), "{workers} workers");
    Ok(())
}

#[test]
fn locked_workers_run_the_longest_batch(rt: HostRuntime) -> Result<(), Fail> {
    assert_runs_the_longest(&rt, rt.alloc(), Engine::Locked, 1)?;
    assert_runs_the_longest(&rt, rt.alloc(), Engine::Locked, 4)?;
    assert_runs_the_longest(&rt, rt.alloc(), Engine::Locked, 64)
}

#[test]
fn split_workers_run_the_longest_batch(rt: HostRuntime) -> Result<(), Fail> {
    assert_runs_the_longest(&rt, rt.alloc(), Engine::Split, 1)?;
    assert_runs_the_longest(&rt, rt.alloc(), Engine::Split, 4)?;
    assert_runs_the_longest(&rt, rt.alloc(), Engine::Split, 64)
}
