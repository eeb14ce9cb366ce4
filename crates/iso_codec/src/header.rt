//! The message type and the bitmap.

ghost use Rattle.std.specs.Prelude.{◌≡◌, ℕ, Ok, IfOk};
ghost use Rattle.iso_codec.specs.Sides.{types_of};
ghost use Rattle.iso_laws.specs.Elements.{parts_of};
ghost use Rattle.iso_laws.specs.Reading.{Gives, presence_at, header_at, bytes_at};

use crate::bitmap::{bitmap_at, presence_at};
use crate::fields::bytes_at;
use crate::side::Side;
use crate::types::mti_at;
use iso_laws::Mti;
use iso8583::CodecFault;

/// The type and the bitmap of a message, and the bytes after them.
#[tactic(auto, unfolding(iso_laws::specs::Reading::header_at))]
pub(crate) fn header_at(side: Side, bytes: &[u8]) -> Result<(Mti, u128, &[u8]), CodecFault>
    ensures gives { Gives (λ x. (x.0, x.1, x.2.now)) result (header_at (types_of side) bytes.now) }
    ensures sound { IfOk result (λ x. presence_at (parts_of x.0) x.1 ≡ Ok tt) }
{
    let (text, rest) = bytes_at(0, 4, bytes)?;
    let mti = mti_at(side, text)?;
    let (bitmap, rest) = bitmap_at(rest)?;
    presence_at(mti, bitmap)?;
    Ok((mti, bitmap, rest))
}
