ghost use Rattle.std.specs.Prelude.{◌≡◌, Some};
ghost use Rattle.stm_journal_text.specs.ReplayFault.{number_of_replay_fault, replay_fault_text};
ghost use Rattle.stm_journal_text.specs.declared.replay_fault.ReplayFault.TheVariants.{OutOfMemory};

use std::alloc::{AllocError, AllocFailed};
use std::error::Error;
use std::fmt;

/// Why a journal can't be read or replayed.
#[derive(Clone, Copy, Debug, PartialEq, Eq)]
pub enum ReplayFault {
    /// The line of this number, from 1, is no entry's line.
    Line(usize),
    /// The decision of the entry of this number, from 1, asks for a row that its version didn't log.
    Unlogged(usize),
    /// Memory ran out.
    OutOfMemory,
}

impl ReplayFault {
    /// The fault's number, 1 to 3.
    pub fn number(&self) -> u8
        ensures { result ≡ number_of_replay_fault self.now }
    {
        match self {
            ReplayFault::Line(_) => 1,
            ReplayFault::Unlogged(_) => 2,
            ReplayFault::OutOfMemory => 3,
        }
    }
}

impl fmt::Display for ReplayFault {
    ghost output = { λ fault. Some (replay_fault_text fault) };

    fn fmt<W: fmt::Write>(&self, f: &mut fmt::Formatter<W>) -> fmt::Result {
        match self {
            ReplayFault::Line(n) => write!(f, "line {n} is no entry of a journal"),
            ReplayFault::Unlogged(n) => {
                write!(
                    f,
                    "the decision of entry {n} asks for a row that isn't logged"
                )
            }
            ReplayFault::OutOfMemory => write!(f, "memory ran out"),
        }
    }
}

impl Error for ReplayFault {}

impl From<AllocError> for ReplayFault {
    ghost from_gives = { λ _ fault. fault ≡ OutOfMemory };

    fn from(_error: AllocError) -> ReplayFault {
        ReplayFault::OutOfMemory
    }
}

impl<T: Drop> From<AllocFailed<T>> for ReplayFault {
    ghost from_gives = { λ _ fault. fault ≡ OutOfMemory };

    fn from(_error: AllocFailed<T>) -> ReplayFault {
        ReplayFault::OutOfMemory
    }
}
