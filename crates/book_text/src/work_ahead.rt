use std::sync::atomic::AtomicUsize;
use std::sync::atomic::Ordering::SeqCst;
use std::sync::{Condvar, Wait};
use std::time::Duration;

// How many microseconds a helper sleeps at a time while it is too far ahead.
const NAP: u64 = 100;

/// How far work is that helpers do ahead of the thread that needs it: pieces of work by their numbers, from 0 on.
#[derive(Drop)]
pub struct WorkAhead {
    // How many pieces may be ahead at most.
    most: usize,
    // The number of the next piece that nobody does.
    drawn: AtomicUsize,
    // The number of the piece that is needed next.
    needed: AtomicUsize,
    // Where helpers are parked. Nobody notifies them.
    parked: Condvar,
}

impl WorkAhead {
    /// Work of which nothing is done. At most so many pieces are to be ahead.
    pub fn new(most: usize) -> WorkAhead {
        WorkAhead {
            most,
            drawn: AtomicUsize::new(0),
            needed: AtomicUsize::new(0),
            parked: Condvar::new(),
        }
    }

    /// The next piece that nobody does. The caller does it, once there is room for it.
    pub fn draw(&self) -> usize {
        self.drawn.fetch_add(1, SeqCst)
    }

    /// Waits until this piece isn't too far ahead.
    pub fn await_room<R: Wait>(&self, rt: &R, number: usize) {
        for _ in rt.forever() {
            if number < self.end() {
                return;
            }
            let time = Duration::from_micros(NAP);
            self.parked.sleep(rt, self.parked.notifications(), time);
        }
    }

    /// The next piece that nobody does, if there is room for it, and no other thread draws it at this moment.
    pub fn try_draw(&self) -> Option<usize> {
        let number = self.drawn.load(SeqCst);
        if number >= self.end() {
            return None;
        }
        let next = number.saturating_add(1);
        let drawn = self.drawn.compare_exchange(number, next, SeqCst, SeqCst);
        drawn.is_ok().then_some(number)
    }

    // The number of the first piece that is too far ahead.
    fn end(&self) -> usize {
        self.needed.load(SeqCst).saturating_add(self.most)
    }

    /// Whether this piece is still needed.
    pub fn is_needed(&self, number: usize) -> bool {
        self.needed.load(SeqCst) <= number
    }

    /// Says that this piece is at hand, and the one behind it is needed next.
    pub fn end_piece(&self, number: usize) {
        self.needed.store(number.saturating_add(1), SeqCst);
    }

    /// Says that no more is needed, so that helpers end.
    pub fn close(&self) {
        self.needed.store(usize::MAX, SeqCst);
    }
}
