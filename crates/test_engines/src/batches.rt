//! Whole batches through both engines, with 1, 4 and 64 workers.

use crate::deciding::came;
use engine_workers::{Engine, Hook};
use issuer_rules::Shipped;
use std::alloc::Global;
use std::hint::spin_loop;
use std::process::Abort;
use std::sync::Wait;
use std::thread::Threads;
use std::time::Clock;
use test_fixtures::{advice_rules, laws, request_rules, reversal_rules, unchecked_rules, worked};

// How long each message is held: some ten microseconds, in which others are executed.
const SPINS: u32 = 500;

const RUNS: &[(Engine, u32)] = &[
    (Engine::Locked, 1),
    (Engine::Locked, 4),
    (Engine::Locked, 64),
    (Engine::Split, 1),
    (Engine::Split, 4),
    (Engine::Split, 64),
    (Engine::Parts, 1),
    (Engine::Parts, 4),
    (Engine::Parts, 64),
];

// Holds each message a little, so that several workers take part in a short batch too.
#[derive(Drop)]
struct SlowHook;

impl Hook for SlowHook {
    fn before_decide(&self, _index: u32, _incarnation: u32) {
        for _ in 0..SPINS {
            spin_loop();
        }
    }

    fn after_record(&self, _index: u32, _incarnation: u32) {}
}

// What is wrong with the batch, decided by so many workers of this engine, who commit every message.
fn wrong_with<'a, R: Clock + Threads + Wait + Sync>(
    rt: &R,
    alloc: Global,
    batch: &'a str,
    run_by: (Engine, u32),
) -> Option<&'a str> {
    match came(rt, alloc, run_by, batch, &Shipped, &SlowHook) {
        Ok(came) if came.committed == came.bodies => None,
        Ok(_) => Some("as many commits"),
        Err(line) => Some(line),
    }
}

fn assert_batch<R: Abort + Clock + Threads + Wait + Sync>(rt: &R, alloc: Global, batch: &str) {
    for run_by in RUNS {
        let wrong = wrong_with(rt, alloc, batch, *run_by);
        assert!(rt; wrong.is_none(), "{run_by:?}: {wrong:?} of {batch}");
    }
}

fn assert_batches<R: Abort + Clock + Threads + Wait + Sync>(rt: &R, alloc: Global, batches: &str) {
    for batch in batches.split("\n\n") {
        assert_batch(rt, alloc, batch);
    }
}

#[test]
fn runs_the_worked_batches(rt: HostRuntime) {
    assert_batches(&rt, rt.alloc(), worked());
}

// By each rule, of the laws, and on books that `check_book` refuses.
#[test]
fn runs_batches_by_each_rule(rt: HostRuntime) {
    assert_batches(&rt, rt.alloc(), request_rules());
    assert_batches(&rt, rt.alloc(), advice_rules());
    assert_batches(&rt, rt.alloc(), reversal_rules());
    assert_batches(&rt, rt.alloc(), laws());
    assert_batches(&rt, rt.alloc(), unchecked_rules());
}
