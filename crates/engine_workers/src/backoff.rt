use std::sync::{Condvar, Wait};
use std::thread;
use std::time::Duration;

// The longest rest: an eighth of a second.
const LONGEST: u32 = 131_072;

// The longest rest in which the worker yields to other threads; in a longer one it sleeps, as many microseconds.
const AWAKE: u32 = 16;

/// How long a worker rests before it looks for work. Where others hold the lock most of the time, or each message needs what the one
/// before it writes, one more worker makes nothing faster. It waits with a message in hand, and what is executed behind that message has
/// to be validated or executed again. The first worker never rests, so that there is one that goes on.
#[derive(Clone, Copy, Debug)]
pub struct Backoff {
    // In yields to other threads, or in microseconds.
    rest: u32,
    // The longest rest of this worker.
    longest: u32,
}

impl Backoff {
    /// The backoff of a worker, without a rest yet. The first worker's stays so.
    pub fn of(is_first: bool) -> Backoff {
        let longest = if is_first { 0 } else { LONGEST };
        Backoff { rest: 0, longest }
    }

    /// The backoff after the worker met a conflict, or made progress: a rest twice as long, or half as long.
    pub fn after(self, had_conflict: bool) -> Backoff {
        let rest = if had_conflict {
            self.rest.saturating_mul(2).max(1).min(self.longest)
        } else {
            self.rest / 2
        };
        Backoff { rest, ..self }
    }

    /// Whether the worker rests before it looks for work.
    pub fn rests(self) -> bool {
        self.rest > 0
    }

    /// Rests: lets other threads run, once at least, or sleeps, until the parked ones are notified at the latest.
    pub fn rest<R: Wait>(self, rt: &R, parked: &Condvar) {
        if self.rest > AWAKE {
            let time = Duration::from_micros(u64::from(self.rest));
            parked.sleep(rt, parked.notifications(), time);
            return;
        }
        for _ in 0..self.rest.max(1) {
            thread::yield_now();
        }
    }
}
