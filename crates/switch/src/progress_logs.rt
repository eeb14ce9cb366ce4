use crate::progress::Progress;
use crate::progress_log::ProgressLog;
use log_commands::LockedLogs;
use log_file::OpenFault;

/// Logs that tell how far they are read.
#[derive(Drop)]
pub(crate) struct ProgressLogs<L, P> {
    logs: L,
    progress: Option<P>,
}

impl<L: LockedLogs, P: Progress> ProgressLogs<L, P> {
    ghost use Rattle.std.specs.Prelude.{◌≡◌};

    /// These logs. Without a place to tell it, nothing is told.
    pub(crate) fn new(logs: L, progress: Option<P>) -> ProgressLogs<L, P>
        ensures logs { result.logs ≡ logs }
    {
        ProgressLogs { logs, progress }
    }
}

impl<L: LockedLogs, P: Progress> LockedLogs for ProgressLogs<L, P> {
    type Log = ProgressLog<L::Log, P>;

    ghost holds = { λ all. L.holds all.logs };

    ghost reading = { λ all. L.reading all.logs };

    ghost in_use = { λ all. L.in_use all.logs };

    fn open(&self, name: &str) -> Result<ProgressLog<L::Log, P>, OpenFault> {
        let log = self.logs.open(name)?;
        Ok(ProgressLog::new(log, self.progress, name))
    }
}
