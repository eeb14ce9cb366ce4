//! Where the hook's two calls stand: before a message's decision begins, and after it ended.

use crate::deciding::is_committed;
use engine_workers::{Engine, Hook};
use iso8583::Message;
use issuer_rows::{Frame, ReplyBody};
use issuer_view::{Decide, Recorder, RowSource, Stop};
use std::alloc::{AllocFailed, Global};
use std::sync::Wait;
use std::sync::atomic::{AtomicU8, AtomicU64, Ordering};
use std::thread::Threads;
use std::time::Clock;

const BATCH: &str = "\
# requests on one card, a repeat among them, each with its index as trace number and a minor unit more than the last
body 1100 000000 A 100 = 000/000001
body 1100 000001 A 101 = 000/000002
body 1101 000002 A 102 = 000/000003
body 1100 000003 A 103 = 123
rows 9
";

// Trace numbers are indices here.
const TRACES: [&str; 4] = ["000000", "000001", "000002", "000003"];

// The message's trace number; nothing for any other body.
fn trace_of(frame: &Frame) -> &str {
    match frame {
        Frame::Good(Message::Request(request)) => request.transaction.stan.as_str(),
        _ => "",
    }
}

// What happened so far, a line for each event.
#[derive(Drop)]
struct Diary {
    bytes: Vec<AtomicU8>,
    len: AtomicU64,
}

impl Diary {
    // An empty one, with room for 512 bytes.
    fn new(alloc: Global) -> Result<Diary, AllocFailed<AtomicU8>> {
        let mut bytes = Vec::new(alloc);
        for _ in 0..512 {
            bytes.push(AtomicU8::new(0))?;
        }
        let len = AtomicU64::new(0);
        Ok(Diary { bytes, len })
    }

    fn note(&self, event: &str, trace: &str) {
        for part in [event, " ", trace, "\n"] {
            for byte in part.as_bytes() {
                let place = self.len.fetch_add(1, Ordering::SeqCst);
                if let Some(slot) = self.bytes.get(place as usize) {
                    slot.store(*byte, Ordering::SeqCst);
                }
            }
        }
    }

    // Whether this is all that was noted.
    fn has_noted(&self, text: &[u8]) -> bool {
        if self.len.load(Ordering::SeqCst) as usize != text.len() {
            return false;
        }
        for (slot, byte) in self.bytes.iter().zip(text) {
            if slot.load(Ordering::SeqCst) != *byte {
                return false;
            }
        }
        true
    }
}

// A hook that notes its calls.
#[derive(Drop)]
struct NotingHook<'a> {
    diary: &'a Diary,
}

impl Hook for NotingHook<'_> {
    fn before_decide(&self, index: u32, _incarnation: u32) {
        self.diary.note("before", TRACES.get(index as usize).copied().unwrap_or("?"));
    }

    fn after_record(&self, index: u32, _incarnation: u32) {
        self.diary.note("after", TRACES.get(index as usize).copied().unwrap_or("?"));
    }
}

// The shipped decision, which notes where it begins and where it ends.
#[derive(Drop)]
struct NotingDecision<'a> {
    diary: &'a Diary,
}

impl Decide for NotingDecision<'_> {
    fn decide<S: RowSource>(
        &self,
        frame: &Frame,
        rows: &mut Recorder<S>,
    ) -> Result<ReplyBody, Stop> {
        self.diary.note("begins", trace_of(frame));
        let reply = issuer_rules::decide(frame, rows)?;
        self.diary.note("ends", trace_of(frame));
        Ok(reply)
    }
}

// The events of each message, one message after another.
const TURNS: &[u8] = b"\
before 000000\n\
begins 000000\n\
ends 000000\n\
after 000000\n\
before 000001\n\
begins 000001\n\
ends 000001\n\
after 000001\n\
before 000002\n\
begins 000002\n\
ends 000002\n\
after 000002\n\
before 000003\n\
begins 000003\n\
ends 000003\n\
after 000003\n\
";

// Whether the batch is decided by one worker, and noted in this diary.
fn is_noted<R: Clock + Threads + Wait + Sync>(
    rt: &R,
    alloc: Global,
    engine: Engine,
    diary: &Diary,
) -> bool {
    let hook = NotingHook { diary };
    let decision = NotingDecision { diary };
    is_committed(rt, alloc, (engine, 1), BATCH, &decision, &hook) & diary.has_noted(TURNS)
}

fn notes<R: Clock + Threads + Wait + Sync>(rt: &R, alloc: Global, engine: Engine) -> bool {
    match Diary::new(alloc) {
        Ok(diary) => is_noted(rt, alloc, engine, &diary),
        Err(_) => false,
    }
}

// How often each message's decision began and ended, and the hook was called round it; and how often a call came too early.
#[derive(Drop)]
struct Tally {
    before: [AtomicU64; 4],
    begun: [AtomicU64; 4],
    ended: [AtomicU64; 4],
    after: [AtomicU64; 4],
    too_early: AtomicU64,
}

fn zeros() -> [AtomicU64; 4] {
    [
        AtomicU64::new(0),
        AtomicU64::new(0),
        AtomicU64::new(0),
        AtomicU64::new(0),
    ]
}

impl Tally {
    fn new() -> Tally {
        Tally {
            before: zeros(),
            begun: zeros(),
            ended: zeros(),
            after: zeros(),
            too_early: AtomicU64::new(0),
        }
    }

    // Whether none came too early, and each message's last decision that ended was recorded.
    fn is_in_order(&self) -> bool {
        for (ended, after) in self.ended.iter().zip(&self.after) {
            let recorded = after.load(Ordering::SeqCst);
            if recorded == 0 || ended.load(Ordering::SeqCst) != recorded {
                return false;
            }
        }
        self.too_early.load(Ordering::SeqCst) == 0
    }

    // One event more of this message, which needs as many of the event in front of it.
    fn count(&self, events: &[AtomicU64; 4], in_front: &[AtomicU64; 4], index: usize) {
        let (Some(event), Some(front)) = (events.get(index), in_front.get(index)) else {
            return;
        };
        let earlier = event.fetch_add(1, Ordering::SeqCst);
        if front.load(Ordering::SeqCst) <= earlier {
            self.too_early.fetch_add(1, Ordering::SeqCst);
        }
    }
}

// A hook that counts its calls.
#[derive(Drop)]
struct CountingHook<'a> {
    tally: &'a Tally,
}

impl Hook for CountingHook<'_> {
    fn before_decide(&self, index: u32, _incarnation: u32) {
        if let Some(calls) = self.tally.before.get(index as usize) {
            calls.fetch_add(1, Ordering::SeqCst);
        }
    }

    fn after_record(&self, index: u32, _incarnation: u32) {
        self.tally
            .count(&self.tally.after, &self.tally.ended, index as usize);
    }
}

// The shipped decision, which counts where it begins and where it ends.
#[derive(Drop)]
struct CountingDecision<'a> {
    tally: &'a Tally,
}

impl Decide for CountingDecision<'_> {
    fn decide<S: RowSource>(
        &self,
        frame: &Frame,
        rows: &mut Recorder<S>,
    ) -> Result<ReplyBody, Stop> {
        let trace = trace_of(frame);
        let index = TRACES.iter().position(|text| *text == trace).unwrap_or(4);
        self.tally
            .count(&self.tally.begun, &self.tally.before, index);
        let reply = issuer_rules::decide(frame, rows)?;
        self.tally
            .count(&self.tally.ended, &self.tally.begun, index);
        Ok(reply)
    }
}

// Whether the batch is decided by four workers, whose calls come in order.
fn is_counted<R: Clock + Threads + Wait + Sync>(rt: &R, alloc: Global, engine: Engine) -> bool {
    let tally = Tally::new();
    let hook = CountingHook { tally: &tally };
    let decision = CountingDecision { tally: &tally };
    is_committed(rt, alloc, (engine, 4), BATCH, &decision, &hook) & tally.is_in_order()
}

// What isn't so.
fn first_wrong<R: Clock + Threads + Wait + Sync>(rt: &R, alloc: Global) -> Option<&'static str> {
    // With one worker the messages have their turns one after another.
    if !notes(rt, alloc, Engine::Locked) {
        return Some("the locked engine's hook stands round each decision");
    }
    if !notes(rt, alloc, Engine::Split) {
        return Some("the split engine's hook stands round each decision");
    }
    // Of each message, with four workers: no decision begins before the hook's first call, no second call comes before a decision
    // ended, and each that ended is recorded.
    if !is_counted(rt, alloc, Engine::Locked) {
        return Some("no call of the locked engine's hook comes too early");
    }
    if !is_counted(rt, alloc, Engine::Split) {
        return Some("no call of the split engine's hook comes too early");
    }
    None
}

#[test]
fn the_hook_stands_round_each_decision(rt: HostRuntime) {
    let wrong = first_wrong(&rt, rt.alloc());
    assert!(rt; wrong.is_none(), "{wrong:?}");
}
