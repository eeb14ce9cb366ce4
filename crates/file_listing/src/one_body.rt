ghost use Rattle.std.specs.Prelude.{◌≡◌, Ok, Err, IfOk, IfErr};
ghost use Rattle.file_laws.specs.Reading.{body_at, length_at};

use crate::fields::{field_at, short_at};
use file_laws::BatchFault;

// A length from 1 to 512, and the bytes behind it.
#[tactic(auto, unfolding(file_laws::specs::Reading::length_at))]
fn length_at(bytes: &[u8]) -> Result<(u16, &[u8]), BatchFault>
    ensures ok { IfOk result (λ parts. length_at bytes.now ≡ Ok (parts.0, parts.1.now)) }
    ensures err { IfErr result (λ fault. length_at bytes.now ≡ Err fault) }
{
    let (length, behind) = match short_at(bytes) {
        Ok(parts) => parts,
        Err(fault) => return Err(fault),
    };
    if length == 0 || length > 512 {
        return Err(BatchFault::Length);
    }
    Ok((length, behind))
}

/// A body behind its length, and the bytes behind it.
#[tactic(auto, unfolding(file_laws::specs::Reading::body_at))]
pub(crate) fn body_at(bytes: &[u8]) -> Result<(&[u8], &[u8]), BatchFault>
    ensures ok { IfOk result (λ parts. body_at bytes.now ≡ Ok (parts.0.now, parts.1.now)) }
    ensures err { IfErr result (λ fault. body_at bytes.now ≡ Err fault) }
{
    match length_at(bytes) {
        Ok((length, behind)) => field_at(behind, usize::from(length)),
        Err(fault) => Err(fault),
    }
}
