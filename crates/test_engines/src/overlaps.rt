//! Workers on threads: that they overlap, and that no lock is held while a message is decided.

use crate::deciding::{came, is_committed};
use engine_workers::{Engine, Hook, NoHook};
use iso8583::Message;
use issuer_rows::{Frame, ReplyBody};
use issuer_rules::Shipped;
use issuer_view::{Decide, Recorder, RowSource, Stop};
use std::alloc::Global;
use std::sync::Wait;
use std::sync::atomic::{AtomicU64, Ordering};
use std::thread;
use std::thread::Threads;
use std::time::Clock;

// How often a thread looks whether another made progress, before the test fails.
const TURNS: u64 = 50_000_000;

// Waits until the flag has this value, and says whether it came to it.
fn comes_to(flag: &AtomicU64, value: u64) -> bool {
    for _ in 0..TURNS {
        if flag.load(Ordering::SeqCst) >= value {
            return true;
        }
        thread::yield_now();
    }
    false
}

const TWO_CARDS: &str = "\
# two requests, one on each card
body 1100 000001 A 100 = 000/000001
body 1100 000002 B 100 = 000/000001
has account A 9900 978
has account B 400 978
rows 8
";

const ONE_CARD: &str = "\
# three requests on one card
body 1100 000001 A 100 = 000/000001
body 1100 000002 A 100 = 000/000002
body 1100 000003 A 100 = 000/000003
has account A 9700 978
rows 8
";

// Holds the first message before its first decision until so many others were recorded.
#[derive(Drop)]
struct HoldingHook {
    others: u64,
    recorded: AtomicU64,
    was_in_time: AtomicU64,
}

impl HoldingHook {
    fn new(others: u64) -> HoldingHook {
        HoldingHook {
            others,
            recorded: AtomicU64::new(0),
            was_in_time: AtomicU64::new(0),
        }
    }
}

impl Hook for HoldingHook {
    fn before_decide(&self, index: u32, incarnation: u32) {
        if index == 0 && incarnation == 0 && comes_to(&self.recorded, self.others) {
            self.was_in_time.store(1, Ordering::SeqCst);
        }
    }

    fn after_record(&self, index: u32, incarnation: u32) {
        if index != 0 && incarnation == 0 {
            self.recorded.fetch_add(1, Ordering::SeqCst);
        }
    }
}

// Two messages on two cards: the second one is recorded while the first one is held.
fn two_overlap<R: Clock + Threads + Wait + Sync>(rt: &R, alloc: Global, engine: Engine) -> bool {
    let hook = HoldingHook::new(1);
    match came(rt, alloc, (engine, 2), TWO_CARDS, &Shipped, &hook) {
        Ok(came) => {
            (hook.was_in_time.load(Ordering::SeqCst) == 1)
                & (came.started == 2)
                & (came.committed == 2)
        }
        Err(_) => false,
    }
}

// Two messages on one card are recorded while the one before them is held: both read old rows, and come out right.
fn three_overlap<R: Clock + Threads + Wait + Sync>(rt: &R, alloc: Global, engine: Engine) -> bool {
    let hook = HoldingHook::new(2);
    is_committed(rt, alloc, (engine, 3), ONE_CARD, &Shipped, &hook)
        & (hook.was_in_time.load(Ordering::SeqCst) == 1)
}

// The shipped decision; but each of two messages raises its flag first, and waits for the other's.
#[derive(Drop)]
struct Meeting {
    first: AtomicU64,
    second: AtomicU64,
    met: AtomicU64,
}

impl Decide for Meeting {
    fn decide<S: RowSource>(
        &self,
        frame: &Frame,
        rows: &mut Recorder<S>,
    ) -> Result<ReplyBody, Stop> {
        let (mine, other) = if is_first(frame) {
            (&self.first, &self.second)
        } else {
            (&self.second, &self.first)
        };
        mine.store(1, Ordering::SeqCst);
        if comes_to(other, 1) {
            self.met.fetch_add(1, Ordering::SeqCst);
        }
        issuer_rules::decide(frame, rows)
    }
}

fn is_first(frame: &Frame) -> bool {
    match frame {
        Frame::Good(Message::Request(request)) => request.transaction.stan.as_str() == "000001",
        _ => false,
    }
}

// Whether two decisions go on at the same time.
fn two_meet<R: Clock + Threads + Wait + Sync>(rt: &R, alloc: Global, engine: Engine) -> bool {
    let meeting = Meeting {
        first: AtomicU64::new(0),
        second: AtomicU64::new(0),
        met: AtomicU64::new(0),
    };
    is_committed(rt, alloc, (engine, 2), TWO_CARDS, &meeting, &NoHook)
        & (meeting.met.load(Ordering::SeqCst) >= 2)
}

// What isn't so.
fn first_wrong<R: Clock + Threads + Wait + Sync>(rt: &R, alloc: Global) -> Option<&'static str> {
    if !two_overlap(rt, alloc, Engine::Locked) {
        return Some("the locked engine records a message while one before it is held");
    }
    if !two_overlap(rt, alloc, Engine::Split) {
        return Some("the split engine records a message while one before it is held");
    }
    if !three_overlap(rt, alloc, Engine::Locked) {
        return Some("the locked engine decides again what was decided too early");
    }
    if !three_overlap(rt, alloc, Engine::Split) {
        return Some("the split engine decides again what was decided too early");
    }
    // No lock is held through a decision.
    if !two_meet(rt, alloc, Engine::Locked) {
        return Some("two decisions of the locked engine meet");
    }
    if !two_meet(rt, alloc, Engine::Split) {
        return Some("two decisions of the split engine meet");
    }
    None
}

#[test]
fn workers_overlap(rt: HostRuntime) {
    let wrong = first_wrong(&rt, rt.alloc());
    assert!(rt; wrong.is_none(), "{wrong:?}");
}
