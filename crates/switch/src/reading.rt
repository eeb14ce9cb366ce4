use crate::advance::Advance;
use crate::progress::Progress;
use std::sync::atomic::{AtomicU64, Ordering};

/// A file that is read, and when it was told how far.
#[derive(Drop)]
pub(crate) struct Reading<P> {
    progress: Option<P>,
    // How many bytes it has, where that is known.
    whole: Option<u64>,
    // The second in which it was opened.
    opened: u64,
    // The second in which it was told last, or in which it was opened.
    told: AtomicU64,
}

impl<P: Progress> Reading<P> {
    /// A file of this name, which is opened now. Without a place to tell it, nothing is told.
    pub(crate) fn new(progress: Option<P>, name: &str) -> Reading<P> {
        let (whole, opened) = match &progress {
            Some(progress) => {
                progress.is_opened(name);
                (progress.size_of(name), progress.second())
            }
            None => (None, 0),
        };
        Reading {
            progress,
            whole,
            opened,
            told: AtomicU64::new(opened),
        }
    }

    /// So many bytes are read. It is told once in each second.
    pub(crate) fn has_read(&self, bytes: u64) {
        if let Some(progress) = &self.progress {
            let second = progress.second();
            if self.told.swap(second, Ordering::SeqCst) != second {
                progress.has_read(&self.advance(bytes, second));
            }
        }
    }

    // How far it is read with so many bytes, in this second.
    fn advance(&self, bytes: u64, second: u64) -> Advance {
        Advance {
            read: bytes,
            seconds: second.saturating_sub(self.opened),
            whole: self.whole,
        }
    }
}
