ghost use Rattle.std.specs.Prelude.{◌≡◌};
ghost use Rattle.engine_split.specs.declared.exit.Exit.TheVariants.{OutOfMemory};

use issuer_view::Stop;
use std::alloc::AllocError;

/// Why a worker leaves.
#[derive(Clone, Copy, PartialEq, Eq)]
pub(crate) enum Exit {
    /// All messages are committed.
    Done,
    /// The stop mark is set.
    Stopped,
    /// Memory ran out.
    OutOfMemory,
    /// No incarnation is left.
    Exhausted,
    /// The decision stopped, and not where the rows stopped it.
    Lost,
}

impl From<AllocError> for Exit {
    ghost from_gives = { λ _ exit. exit ≡ OutOfMemory };

    fn from(_error: AllocError) -> Exit {
        Exit::OutOfMemory
    }
}

impl From<Stop> for Exit {
    fn from(stop: Stop) -> Exit {
        match stop {
            Stop::OutOfMemory => Exit::OutOfMemory,
            Stop::Blocked(_) | Stop::Lost => Exit::Lost,
        }
    }
}
