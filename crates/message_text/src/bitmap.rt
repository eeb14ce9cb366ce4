ghost use Rattle.std.specs.Prelude.{◌≡◌, ◌^◌, ◌<◌, ◌++◌, OnOk};
ghost use Rattle.iso_laws.specs.Spelling.{bitmap_bytes, bitmap_of, fields};
ghost use Rattle.message_text.specs.Givens.{texts_of};

use crate::given::{Given, text_in};
use crate::names::elements;
use std::alloc::AllocError;

// Bit 1 of the primary bitmap: the secondary one follows.
const BIT_1: u64 = 1 << 63;

/// The bits of the elements that are given.
pub(crate) fn bitmap_of(givens: &[Given]) -> u128
    ensures value { result ≡ bitmap_of (fields (texts_of givens.now)) }
    ensures fits { result < 2 ^ 127 }
{
    let mut bitmap = 0u128;
    let mut rest = elements();
    while let Some((element, more)) = rest.split_first() {
        if text_in(givens, *element).is_some() {
            bitmap += element.bit();
        }
        rest = more;
    }
    bitmap
}

/// Appends the bytes of the bitmap: eight, or sixteen with bit 1 set where an element from 65 on is there.
#[tactic(auto, unfolding(iso_laws::specs::Spelling::bitmap_bytes))]
pub(crate) fn put_bitmap(out: &mut Vec<u8>, bitmap: u128) -> Result<(), AllocError>
    requires { bitmap < 2 ^ 127 }
    ensures { OnOk result (out.new.items ≡ out.old.items ++ bitmap_bytes bitmap) }
{
    let primary = (bitmap >> 64) as u64;
    let secondary = (bitmap % (1 << 64)) as u64;
    if secondary == 0 {
        return out.extend_from_slice(&primary.to_be_bytes());
    }
    out.extend_from_slice(&(BIT_1 + primary).to_be_bytes())?;
    out.extend_from_slice(&secondary.to_be_bytes())
}
