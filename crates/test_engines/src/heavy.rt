//! Decisions so heavy that the split engine shares them.

use crate::deciding::decided_by;
use engine_workers::{Engine, Hook};
use issuer_rules::Shipped;
use std::alloc::{AllocFailed, Global};
use std::process::Abort;
use std::sync::Wait;
use std::sync::atomic::{AtomicU32, Ordering};
use std::test::Fail;
use std::thread::Threads;
use std::time::{Clock, Duration, Instant};
use test_fixtures::{count_of, first_book_with, requests};

// How many messages: so many that they are not shared from the start, but once they are found heavy.
const MESSAGES: u32 = 4096;

// A hook that makes each decision 10 microseconds heavy, and counts by their places the messages that it was called for.
#[derive(Drop)]
struct HeavyHook<'a, R: Clock> {
    clock: &'a R,
    before: Vec<AtomicU32>,
    after: Vec<AtomicU32>,
}

impl<'a, R: Clock> HeavyHook<'a, R> {
    fn new(clock: &'a R, alloc: Global) -> Result<HeavyHook<'a, R>, AllocFailed<AtomicU32>> {
        let mut before = Vec::new(alloc);
        let mut after = Vec::new(alloc);
        for _ in 0..MESSAGES {
            before.push(AtomicU32::new(0))?;
            after.push(AtomicU32::new(0))?;
        }
        Ok(HeavyHook {
            clock,
            before,
            after,
        })
    }

    // Whether it was called for each message, before it was decided and after.
    fn was_told_of_all(&self) -> bool {
        are_counted(&self.before) && are_counted(&self.after)
    }

    // Whether so long has passed since.
    fn has_passed(&self, since: Instant, time: Duration) -> bool {
        match since.elapsed(self.clock) {
            Ok(passed) => passed >= time,
            Err(_) => true,
        }
    }
}

impl<R: Clock + Sync> Hook for HeavyHook<'_, R> {
    fn before_decide(&self, index: u32, _incarnation: u32) {
        count(&self.before, index);
        let Ok(since) = Instant::now(self.clock) else {
            return;
        };
        for _ in 0..1_000_000 {
            if self.has_passed(since, Duration::from_micros(10)) {
                return;
            }
        }
    }

    fn after_record(&self, index: u32, _incarnation: u32) {
        count(&self.after, index);
    }
}

fn count(counts: &[AtomicU32], index: u32) {
    if let Some(count) = counts.get(index as usize) {
        count.fetch_add(1, Ordering::SeqCst);
    }
}

fn are_counted(counts: &[AtomicU32]) -> bool {
    for count in counts {
        if count.load(Ordering::SeqCst) == 0 {
            return false;
        }
    }
    true
}

// A long batch, decided by so many workers of the split engine behind such a hook.
fn assert_shares<R: Abort + Clock + Threads + Wait + Sync>(
    rt: &R,
    alloc: Global,
    workers: u32,
) -> Result<(), Fail> {
    let book = first_book_with(alloc, &[])?;
    let frames = requests(alloc, MESSAGES)?;
    assert!(rt; frames.len() == 4096);
    let hook = HeavyHook::new(rt, alloc)?;
    let run_by = (Engine::Split, workers);
    let decided = decided_by(rt, alloc, run_by, &book, &frames, &Shipped, &hook);
    let outcome = decided.expect(rt, "room");
    assert!(rt; outcome.replies.len() == 4096);
    assert!(rt; count_of(alloc, &outcome.replies, "123") == 4093);
    assert!(rt; outcome.started == workers, "{workers} workers");
    assert!(rt; outcome.committed == 4096, "{workers} workers");
    assert!(rt; hook.was_told_of_all(), "{workers} workers");
    Ok(())
}

#[test]
fn split_workers_share_heavy_decisions(rt: HostRuntime) -> Result<(), Fail> {
    assert_shares(&rt, rt.alloc(), 4)?;
    assert_shares(&rt, rt.alloc(), 64)
}
