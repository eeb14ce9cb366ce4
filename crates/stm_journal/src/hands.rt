ghost use Rattle.std.specs.Prelude.{◌≡◌, IfOk};
ghost use Rattle.stm_journal.specs.Drives.{empty_hands};

use crate::holding::Holding;
use std::alloc::{AllocError, Global};

/// Each of the 64 seats holds nothing.
pub(crate) fn empty_hands(alloc: Global) -> Result<Vec<Holding>, AllocError>
    ensures { IfOk result (λ hands. hands.items ≡ empty_hands) }
{
    let mut hands = Vec::with_capacity(alloc, 64)?;
    for _ in 0..64u32 {
        hands.push_reserved(Holding::Nothing);
    }
    Ok(hands)
}
