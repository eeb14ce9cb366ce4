ghost use Rattle.std.specs.Prelude.{◌≡◌};
ghost use Rattle.file_devices.specs.declared.claim_fault.ClaimFault.TheVariants.{OutOfMemory};

use std::alloc::AllocError;

/// Why a file can't be claimed.
#[derive(Clone, Copy, Debug, PartialEq, Eq)]
pub enum ClaimFault {
    /// Another run has claimed it.
    InUse,
    /// Memory ran out.
    OutOfMemory,
}

impl From<AllocError> for ClaimFault {
    ghost from_gives = { λ _ fault. fault ≡ OutOfMemory };

    fn from(_error: AllocError) -> ClaimFault {
        ClaimFault::OutOfMemory
    }
}
