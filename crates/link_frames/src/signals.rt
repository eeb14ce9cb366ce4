use std::sync::atomic::{AtomicBool, Ordering};
use std::thread;
use std::thread::Parker;

// How often the thread that serves yields to the one that reads, until that has begun. It begins within some 100 microseconds.
const PATIENCE: u32 = 1_000_000;

/// By which the thread that reads a link and the one that serves it notify each other.
#[derive(Drop)]
pub struct Signals {
    /// More bytes are there, or the last word.
    pub(crate) came: Parker,
    /// There is room for more.
    pub(crate) room: Parker,
    claimed: AtomicBool,
    stopped: AtomicBool,
}

impl Signals {
    /// No thread reads yet.
    pub fn new() -> Signals {
        Signals {
            came: Parker::new(),
            room: Parker::new(),
            claimed: AtomicBool::new(false),
            stopped: AtomicBool::new(false),
        }
    }

    /// Whether the caller is the first one that claims the link: the thread that reads it, or the one that serves it and has waited for
    /// that in vain.
    pub(crate) fn claim(&self) -> bool {
        !self.claimed.swap(true, Ordering::SeqCst)
    }

    /// Waits for the thread that reads. Returns false where it doesn't begin, as where no thread can be made: it reads nothing then.
    pub fn wait_for_reader(&self) -> bool {
        for _ in 0..PATIENCE {
            if self.claimed.load(Ordering::SeqCst) {
                return true;
            }
            thread::yield_now();
        }
        !self.claim()
    }

    /// No more bytes are wanted.
    pub fn stop(&self) {
        self.stopped.store(true, Ordering::SeqCst);
        self.room.unpark();
    }

    /// Whether no more are wanted.
    pub(crate) fn is_stopped(&self) -> bool {
        self.stopped.load(Ordering::SeqCst)
    }
}
