ghost use Rattle.std.specs.Prelude.{◌≡◌};
ghost use Rattle.issuer_view.specs.declared.stop.Stop.TheVariants.{OutOfMemory};

use std::alloc::{AllocError, AllocFailed};
use std::error::Error;
use std::fmt;

/// Why a decision came to no reply.
#[derive(Clone, Copy, Debug, PartialEq, Eq)]
pub enum Stop {
    /// A row waits for the message with this index (Block-STM: ESTIMATE).
    Blocked(u32),
    /// Whoever asked is no longer the one that decides this message.
    Lost,
    /// Memory ran out.
    OutOfMemory,
}

impl fmt::Display for Stop {
    fn fmt<W: fmt::Write>(&self, f: &mut fmt::Formatter<W>) -> fmt::Result {
        match self {
            Stop::Blocked(index) => write!(f, "blocked by message {index}"),
            Stop::Lost => write!(f, "no longer the one that decides"),
            Stop::OutOfMemory => write!(f, "out of memory"),
        }
    }
}

impl Error for Stop {}

impl From<AllocError> for Stop {
    ghost from_gives = { λ _ stop. stop ≡ OutOfMemory };

    fn from(_error: AllocError) -> Stop {
        Stop::OutOfMemory
    }
}

impl<T: Drop> From<AllocFailed<T>> for Stop {
    ghost from_gives = { λ _ stop. stop ≡ OutOfMemory };

    fn from(_error: AllocFailed<T>) -> Stop {
        Stop::OutOfMemory
    }
}
