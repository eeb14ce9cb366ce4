ghost use Rattle.std.specs.Prelude.{◌≡◌};
ghost use Rattle.log_replay.specs.ReplayFault.{fault_of_reading};
ghost use Rattle.log_replay.specs.declared.replay_fault.ReplayFault.TheVariants.{OutOfMemory};

use file_laws::LogFault;
use std::alloc::{AllocError, AllocFailed};

/// Why a log is not decided again.
#[derive(Clone, Copy, Debug, PartialEq, Eq)]
pub enum ReplayFault {
    /// It is no log of the book, can't be read, or changed while it was read.
    Log(LogFault),
    /// It has more than 65,536,000 messages, whose replies no file of blocks can have.
    TooMany,
    /// The replies can't be written.
    Unwritable,
    /// Memory ran out.
    OutOfMemory,
}

impl From<AllocError> for ReplayFault {
    ghost from_gives = { λ _ fault. fault ≡ OutOfMemory };

    fn from(_error: AllocError) -> ReplayFault {
        ReplayFault::OutOfMemory
    }
}

impl<T: Drop> From<AllocFailed<T>> for ReplayFault {
    ghost from_gives = { λ _ fault. fault ≡ OutOfMemory };

    fn from(_error: AllocFailed<T>) -> ReplayFault {
        ReplayFault::OutOfMemory
    }
}

impl From<LogFault> for ReplayFault {
    ghost from_gives = { λ reading fault. fault ≡ fault_of_reading reading };

    fn from(fault: LogFault) -> ReplayFault {
        match fault {
            LogFault::InUse => ReplayFault::Log(LogFault::OutOfMemory),
            fault => ReplayFault::Log(fault),
        }
    }
}
