//! What passes the hook, and what is committed where a decision stops.

use crate::deciding::{came, is_committed};
use engine_workers::{Engine, Hook, NoHook};
use iso8583::Message;
use issuer_rows::{Frame, ReplyBody};
use issuer_rules::Shipped;
use issuer_view::{Decide, Recorder, RowSource, Stop};
use std::alloc::Global;
use std::sync::Wait;
use std::sync::atomic::{AtomicU64, Ordering};
use std::thread::Threads;
use std::time::Clock;

const BATCH: &str = "\
# an approved request, a decline, a body that is no message, and a request on the other card
body 1100 000001 A 9900 = 000/000001
body 1100 000002 A 101 = 116
body bad = F08000
body 1100 000003 B 100 = 000/000001
has account A 100 978
has account B 400 978
rows 9
";

// The calls so far, as digits: 1 before a decision, 2 after its record, each followed by the message's index.
#[derive(Drop)]
struct WritingHook {
    calls: AtomicU64,
}

impl WritingHook {
    fn note(&self, call: u64, index: u32) {
        let calls = self.calls.load(Ordering::SeqCst);
        let more = calls.wrapping_mul(100).wrapping_add(call.wrapping_mul(10));
        let all = more.wrapping_add(u64::from(index));
        self.calls.store(all, Ordering::SeqCst);
    }
}

impl Hook for WritingHook {
    fn before_decide(&self, index: u32, _incarnation: u32) {
        self.note(1, index);
    }

    fn after_record(&self, index: u32, _incarnation: u32) {
        self.note(2, index);
    }
}

// The table, but at the second message memory runs out.
#[derive(Clone, Copy)]
struct WithoutMemory;

impl Decide for WithoutMemory {
    fn decide<S: RowSource>(
        &self,
        frame: &Frame,
        rows: &mut Recorder<S>,
    ) -> Result<ReplyBody, Stop> {
        if is_decline(frame) {
            return Err(Stop::OutOfMemory);
        }
        issuer_rules::decide(frame, rows)
    }
}

// Whether it is the second of the bodies.
fn is_decline(frame: &Frame) -> bool {
    match frame {
        Frame::Good(Message::Request(request)) => request.transaction.amount.minor() == 101,
        _ => false,
    }
}

// Whether the batch, decided by one worker of this engine with this decision, comes to as many commits and to these calls of the
// hook.
fn comes_to<R: Clock + Threads + Wait + Sync, F: Decide + Sync>(
    rt: &R,
    alloc: Global,
    engine: Engine,
    decision: &F,
    committed: usize,
    calls: u64,
) -> bool {
    let hook = WritingHook {
        calls: AtomicU64::new(0),
    };
    match came(rt, alloc, (engine, 1), BATCH, decision, &hook) {
        Ok(came) => {
            (came.started == 1)
                & (came.committed == committed)
                & (hook.calls.load(Ordering::SeqCst) == calls)
        }
        Err(_) => false,
    }
}

// What isn't so, of a batch whose every message the workers commit, and of one where a decision stops.
fn first_wrong<R: Clock + Threads + Wait + Sync>(rt: &R, alloc: Global) -> Option<&'static str> {
    // The workers commit every message, the decline and the bad body too: the rest that is decided one after another is empty.
    let calls = 1020_1121_1222_1323;
    if !comes_to(rt, alloc, Engine::Locked, &Shipped, 4, calls) {
        return Some("the locked engine's workers commit every message");
    }
    if !comes_to(rt, alloc, Engine::Split, &Shipped, 4, calls) {
        return Some("the split engine's workers commit every message");
    }
    // Where a decision runs out of memory its worker leaves. The rest is decided by the shipped decision and without the hook. With the
    // locked engine the caller plays all messages anew, and the core that it plays on commits them. With the split engine what is
    // committed is what the worker had committed before it left.
    let calls = 10_2011;
    if !comes_to(rt, alloc, Engine::Locked, &WithoutMemory, 4, calls) {
        return Some("the locked engine makes a decision again that stopped");
    }
    if !comes_to(rt, alloc, Engine::Split, &WithoutMemory, 1, calls) {
        return Some("the split engine makes a decision again that stopped");
    }
    None
}

#[test]
fn what_the_workers_commit(rt: HostRuntime) {
    let wrong = first_wrong(&rt, rt.alloc());
    assert!(rt; wrong.is_none(), "{wrong:?}");
}

// A hook that holds nothing is called too, by as many threads as there may be.
#[test]
fn no_hook_holds_nothing(rt: HostRuntime) {
    let alloc = rt.alloc();
    let locked = is_committed(&rt, alloc, (Engine::Locked, 64), BATCH, &Shipped, &NoHook);
    let split = is_committed(&rt, alloc, (Engine::Split, 64), BATCH, &Shipped, &NoHook);
    assert!(rt; locked & split);
}
