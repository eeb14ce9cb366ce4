use std::sync::atomic::{AtomicBool, Ordering};
use std::thread::Parker;

/// By which the thread that reads a batch and the one that decides it notify each other of pieces.
#[derive(Drop)]
pub(crate) struct Signals {
    /// One more piece is read.
    pub(crate) read: Parker,
    /// One more piece is decided.
    pub(crate) decided: Parker,
    begun: AtomicBool,
}

impl Signals {
    /// No thread decides yet.
    pub(crate) fn new() -> Signals {
        Signals {
            read: Parker::new(),
            decided: Parker::new(),
            begun: AtomicBool::new(false),
        }
    }

    /// Signals that a thread decides.
    pub(crate) fn begin(&self) {
        self.begun.store(true, Ordering::SeqCst);
    }

    /// Whether a thread decides.
    pub(crate) fn has_begun(&self) -> bool {
        self.begun.load(Ordering::SeqCst)
    }
}
