ghost use Rattle.std.specs.Prelude.{◌≡◌};
ghost use Rattle.stm_core_laws.specs.declared.core_fault.CoreFault.TheVariants.{OutOfMemory};

use std::alloc::{AllocError, AllocFailed};
use std::error::Error;
use std::fmt;

/// Why a core refuses a call. It is then as it was before.
#[derive(Clone, Copy, Debug, PartialEq, Eq)]
pub enum CoreFault {
    /// The version is not running; or the seat has no validation that the call could go on with.
    NotRunning,
    /// The execution is of another message, or of rows that the version was not answered.
    OtherReads,
    /// The version is not executed any more, or it is committed: there is nothing to be validated.
    Outdated,
    /// Memory ran out.
    OutOfMemory,
    /// No incarnation of the message, or no epoch, is left.
    Exhausted,
}

impl fmt::Display for CoreFault {
    fn fmt<W: fmt::Write>(&self, f: &mut fmt::Formatter<W>) -> fmt::Result {
        match self {
            CoreFault::NotRunning => write!(f, "the version is not running"),
            CoreFault::OtherReads => write!(
                f,
                "the execution did not read what the version was answered"
            ),
            CoreFault::Outdated => write!(f, "the version is not to be checked"),
            CoreFault::OutOfMemory => write!(f, "out of memory"),
            CoreFault::Exhausted => write!(f, "no incarnation or epoch is left"),
        }
    }
}

impl Error for CoreFault {}

impl From<AllocError> for CoreFault {
    ghost from_gives = { λ _ e. e ≡ OutOfMemory };

    fn from(_e: AllocError) -> CoreFault {
        CoreFault::OutOfMemory
    }
}

impl<T: Drop> From<AllocFailed<T>> for CoreFault {
    ghost from_gives = { λ _ e. e ≡ OutOfMemory };

    fn from(_e: AllocFailed<T>) -> CoreFault {
        CoreFault::OutOfMemory
    }
}
