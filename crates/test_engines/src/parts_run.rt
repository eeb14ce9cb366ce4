//! Whole batches, decided in parts with 1, 4 and 64 workers, and what they come to.

use crate::parts_joined::are_same;
use engine_parts::{run_apart, run_parts};
use engine_workers::Workers;
use issuer_fold::{Prefix, RunOutcome, decide_all_by};
use issuer_rows::Frame;
use issuer_rules::Shipped;
use std::alloc::Global;
use std::process::Abort;
use std::test::Fail;
use std::thread::Threads;
use test_fixtures::{
    advice_rules, body, first_wrong, frames, laws, opening, request_rules, reversal_rules, worked,
};

const WORKERS: &[u32] = &[1, 4, 64];

// The batch, decided by so many workers; nothing where memory runs out.
fn decided<R: Threads + Sync>(
    rt: &R,
    alloc: Global,
    workers: u32,
    batch: &str,
) -> Option<RunOutcome> {
    let book = opening(alloc, batch)?;
    let bodies = frames(alloc, batch).ok()?;
    if bodies.len() > 64 {
        return None;
    }
    run_apart(rt, alloc, &book, &bodies, Workers::new(workers)?, &Shipped).ok()
}

// What is wrong with the batch, decided by so many workers.
fn wrong_with<'a, R: Threads + Sync>(
    rt: &R,
    alloc: Global,
    workers: u32,
    batch: &'a str,
) -> Option<&'a str> {
    match decided(rt, alloc, workers, batch) {
        Some(came) => first_wrong(alloc, batch, &came.replies, &came.book),
        None => Some("room"),
    }
}

fn assert_batches<R: Abort + Threads + Sync>(rt: &R, alloc: Global, batches: &str) {
    for batch in batches.split("\n\n") {
        for workers in WORKERS {
            let wrong = wrong_with(rt, alloc, *workers, batch);
            assert!(rt; wrong.is_none(), "{workers}: {wrong:?} of {batch}");
        }
    }
}

#[test]
fn runs_batches(rt: HostRuntime) {
    assert_batches(&rt, rt.alloc(), worked());
    assert_batches(&rt, rt.alloc(), request_rules());
    assert_batches(&rt, rt.alloc(), advice_rules());
    assert_batches(&rt, rt.alloc(), reversal_rules());
    assert_batches(&rt, rt.alloc(), laws());
}

// Cards A and B share nothing: two parts, each on a thread.
#[test]
fn runs_two_parts(rt: HostRuntime) {
    let batch = "body 1100 000001 A 100\nbody 1100 000002 B 100\nbody 1100 000003 A 100";
    let started = decided(&rt, rt.alloc(), 4, batch).map(|came| came.started);
    assert!(&rt; started == Some(2), "{started:?}");
}

// So many requests on cards A and B in turn.
fn requests_in_turn(alloc: Global, many: u32) -> Result<Vec<Frame>, Fail> {
    let mut bodies = Vec::new(alloc);
    for trace in 0..many {
        let card = if trace % 2 == 0 { "A" } else { "B" };
        let line = format!(in alloc; "1100 {trace:06} {card} 1")?;
        bodies.push(body(line.as_str()).ok_or("a body")?)?;
    }
    Ok(bodies)
}

// A long batch comes to what its messages come to one after another.
fn came_alike<R: Threads + Sync>(rt: &R, alloc: Global, workers: u32) -> Result<bool, Fail> {
    let book = opening(alloc, "").ok_or("a book")?;
    let bodies = requests_in_turn(alloc, 5000)?;
    if bodies.len() > 65_536 {
        return Ok(false);
    }
    let workers = Workers::new(workers).ok_or("workers")?;
    let came = run_parts(rt, alloc, &book, &bodies, workers, &Shipped)?;
    let after = decide_all_by(alloc, Prefix::new(alloc, book), &bodies, &Shipped)?;
    Ok(are_same(&came.replies, &after.replies) && came.book.is_same(&after.book))
}

#[test]
fn runs_a_long_batch(rt: HostRuntime) -> Result<(), Fail> {
    for workers in WORKERS {
        let alike = came_alike(&rt, rt.alloc(), *workers)?;
        assert!(&rt; alike, "{workers}");
    }
    Ok(())
}
