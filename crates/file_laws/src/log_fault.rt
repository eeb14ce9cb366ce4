ghost use Rattle.std.specs.Prelude.{◌≡◌};
ghost use Rattle.file_laws.specs.LogFault.{number_of_fault};
ghost use Rattle.file_laws.specs.declared.log_fault.LogFault.TheVariants.{OutOfMemory};

use std::alloc::{AllocError, AllocFailed};
use std::fmt;

/// Why a log is not read or written.
#[derive(Clone, Copy, Debug, PartialEq, Eq)]
pub enum LogFault {
    /// It is no log.
    NoLog,
    /// It is of another version.
    Version,
    /// It is the log of another book.
    OtherBook,
    /// Another program writes it.
    InUse,
    /// What stands behind so many whole entries is no entry and no torn tail.
    Broken(u64),
    /// A call on the file failed: it can't be read, written or synced.
    Failed,
    /// Memory ran out.
    OutOfMemory,
}

impl LogFault {
    /// The fault's number, 1 to 7.
    pub fn number(&self) -> u8
        ensures { result ≡ number_of_fault self.now }
    {
        match self {
            LogFault::NoLog => 1,
            LogFault::Version => 2,
            LogFault::OtherBook => 3,
            LogFault::InUse => 4,
            LogFault::Broken(_) => 5,
            LogFault::Failed => 6,
            LogFault::OutOfMemory => 7,
        }
    }
}

impl From<AllocError> for LogFault {
    ghost from_gives = { λ _ fault. fault ≡ OutOfMemory };

    fn from(_error: AllocError) -> LogFault {
        LogFault::OutOfMemory
    }
}

impl<T: Drop> From<AllocFailed<T>> for LogFault {
    ghost from_gives = { λ _ fault. fault ≡ OutOfMemory };

    fn from(_error: AllocFailed<T>) -> LogFault {
        LogFault::OutOfMemory
    }
}

impl fmt::Display for LogFault {
    fn fmt<W: fmt::Write>(&self, f: &mut fmt::Formatter<W>) -> fmt::Result {
        write!(f, "log {}", self.number())
    }
}
