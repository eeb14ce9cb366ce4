use crate::progress::Progress;
use crate::reading::Reading;
use file_devices::Broken;
use log_commands::LockedLog;

/// A log that tells how far it is read.
#[derive(Drop)]
pub(crate) struct ProgressLog<L, P> {
    log: L,
    reading: Reading<P>,
}

impl<L: LockedLog, P: Progress> ProgressLog<L, P> {
    ghost use Rattle.std.specs.Prelude.{◌≡◌};

    /// This log, of this name. Without a place to tell it, nothing is told.
    pub(crate) fn new(log: L, progress: Option<P>, name: &str) -> ProgressLog<L, P>
        ensures log { result.log ≡ log }
    {
        ProgressLog {
            log,
            reading: Reading::new(progress, name),
        }
    }
}

impl<L: LockedLog, P: Progress> LockedLog for ProgressLog<L, P> {
    ghost is_known = { λ all. L.is_known all.log };

    ghost bytes = { λ all. L.bytes all.log };

    ghost may_fail = { λ all. L.may_fail all.log };

    fn read_at(&self, at: u64, buffer: &mut [u8]) -> Result<usize, Broken> {
        let read = self.log.read_at(at, buffer);
        if let Ok(count) = read {
            self.reading.has_read(at.saturating_add(count as u64));
        }
        read
    }
}
