ghost use Rattle.std.specs.Prelude.{◌≡◌};
ghost use Rattle.app_words.specs.declared.line_fault.LineFault.TheVariants.{OutOfMemory};

use std::alloc::AllocError;
use thiserror::Error;

/// Why words are not read as a command.
#[derive(Debug, Drop, Error)]
pub enum LineFault {
    /// They are none: what is wrong with them.
    #[error("{0}")]
    Usage(String),
    /// Memory ran out.
    #[error("memory 1")]
    OutOfMemory,
}

impl From<AllocError> for LineFault {
    ghost from_gives = { λ _ fault. fault ≡ OutOfMemory };

    fn from(_error: AllocError) -> LineFault {
        LineFault::OutOfMemory
    }
}
