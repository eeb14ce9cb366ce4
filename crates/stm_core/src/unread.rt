ghost use Rattle.std.specs.Prelude.{◌≡◌};
ghost use Rattle.stm_core.specs.declared.unread.Unread.TheVariants.{Refused};
ghost use Rattle.stm_core_laws.specs.declared.core_fault.CoreFault.TheVariants.{OutOfMemory};

use std::alloc::AllocError;
use stm_core_laws::CoreFault;

/// Why a version that asks for a row is given none.
#[derive(Clone, Copy)]
pub enum Unread {
    /// This message wrote the row, was aborted, and will likely write it again (Block-STM: ESTIMATE).
    Estimate(u32),
    /// The core refuses, and is as it was.
    Refused(CoreFault),
}

impl From<AllocError> for Unread {
    ghost from_gives = { λ _ e. e ≡ Refused OutOfMemory };

    fn from(_e: AllocError) -> Unread {
        Unread::Refused(CoreFault::OutOfMemory)
    }
}
