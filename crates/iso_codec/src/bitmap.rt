//! Which elements a bitmap announces.

ghost use Rattle.std.specs.Prelude.{◌≡◌, ℕ, ◌≤◌, ◌<◌, ◌^◌, length, IfOk};
ghost use Rattle.std.specs.Int.{w64, from_be_bytes};
ghost use Rattle.iso_laws.specs.Elements.{parts_of};
ghost use Rattle.iso_laws.specs.Spelling.{is_set};
ghost use Rattle.iso_laws.specs.Reading.{Gives, least, secondary_at, bitmap_at, presence_at};

use crate::fields::bytes_at;
use iso_laws::Mti;
use iso8583::CodecFault;

/// Whether element `n` is there. Bit 1 is the highest.
pub(crate) fn is_set(bitmap: u128, n: u8) -> bool
    requires low { 1 ≤ n }
    requires high { n ≤ 128 }
    ensures { result ≡ is_set bitmap n }
{
    (bitmap >> (128 - n)) & 1 == 1
}

/// The number of eight bytes, the highest first.
fn word_of(bytes: &[u8]) -> u64
    requires { length bytes.now ≡ 8 }
    ensures { result ≡ from_be_bytes w64 bytes.now }
{
    u64::from_be_bytes([
        bytes[0], bytes[1], bytes[2], bytes[3], bytes[4], bytes[5], bytes[6], bytes[7],
    ])
}

/// Bit 1 of the first eight bytes: eight more follow.
const BIT_1: u64 = 1 << 63;

/// The whole bitmap, where eight more bytes follow.
#[tactic(auto, unfolding(iso_laws::specs::Reading::secondary_at))]
fn secondary_at(primary: u64, bytes: &[u8]) -> Result<(u128, &[u8]), CodecFault>
    requires { 2 ^ 63 ≤ primary }
    ensures gives { Gives (λ x. (x.0, x.1.now)) result (secondary_at primary bytes.now) }
    ensures fits { IfOk result (λ x. x.0 < 2 ^ 127) }
{
    let (bits, rest) = bytes_at(0, 8, bytes)?;
    let secondary = word_of(bits);
    if secondary == 0 {
        return Err(CodecFault::SecondaryBitmap);
    }
    let high = u128::from(primary - BIT_1) << 64;
    Ok((high + u128::from(secondary), rest))
}

/// The bitmap of elements 2 to 128, and the bytes after it.
#[tactic(auto, unfolding(iso_laws::specs::Reading::bitmap_at))]
pub(crate) fn bitmap_at(bytes: &[u8]) -> Result<(u128, &[u8]), CodecFault>
    ensures gives { Gives (λ x. (x.0, x.1.now)) result (bitmap_at bytes.now) }
    ensures fits { IfOk result (λ x. x.0 < 2 ^ 127) }
{
    let (bits, rest) = bytes_at(0, 8, bytes)?;
    let primary = word_of(bits);
    if primary >= BIT_1 {
        return secondary_at(primary, rest);
    }
    Ok((u128::from(primary) << 64, rest))
}

/// The least element that the bits announce.
#[tactic(auto, using(crate::proofs::Masks::least_bit, crate::proofs::Masks::no_bit))]
fn least_of(bits: u128) -> Option<u8>
    requires { bits < 2 ^ 127 }
    ensures { result ≡ least (is_set bits) 2 127 }
{
    if bits == 0 {
        return None;
    }
    Some(bits.leading_zeros() as u8 + 1)
}

/// Whether a bitmap can be that of a message of the type, else the first fault.
#[tactic(auto, unfolding(iso_laws::specs::Reading::presence_at))]
pub(crate) fn presence_at(mti: Mti, bitmap: u128) -> Result<(), CodecFault>
    requires { bitmap < 2 ^ 127 }
    ensures { Gives (λ _. tt) result (presence_at (parts_of mti) bitmap) }
{
    if let Some(n) = least_of(bitmap & !mti.may_have()) {
        return Err(CodecFault::Unexpected(n));
    }
    if let Some(n) = least_of(mti.must_have() & !bitmap) {
        return Err(CodecFault::Missing(n));
    }
    Ok(())
}
