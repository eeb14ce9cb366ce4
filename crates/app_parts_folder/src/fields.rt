ghost use Rattle.std.specs.Prelude.{◌≡◌, ◌≢◌, ◌<◌, ◌^◌, ◌++◌, ℕ, List, length, IfNone, IfSome, OnOk};
ghost use Rattle.byteorder.specs.Endian.{big_bytes};
ghost use Rattle.app_parts_folder.specs.PlanTexts.{plan_letters};

use byteorder::{BigEndian, ByteOrder};
use std::alloc::AllocError;

/// A number in four bytes, and the bytes behind it. `None` where there are less.
pub(crate) fn split_number(bytes: &[u8]) -> Option<(u32, &[u8])>
    ensures some { IfSome result (λ parts. bytes.now ≡ big_bytes 4 parts.0 ++ parts.1.now) }
    ensures fits { IfSome result (λ parts. parts.0 < 2 ^ 32) }
    ensures none { IfNone result ((number : ℕ) (behind : List ℕ) → number < 2 ^ 32 → bytes.now ≢ big_bytes 4 number ++ behind) }
{
    if bytes.len() < 4 {
        return None;
    }
    let number = u32::from_be_bytes([bytes[0], bytes[1], bytes[2], bytes[3]]);
    Some((number, &bytes[4..]))
}

/// Thirty-two bytes, and the bytes behind them. `None` where there are less.
pub(crate) fn split_digest(bytes: &[u8]) -> Option<(&[u8], &[u8])>
    ensures some { IfSome result (λ parts. (bytes.now ≡ parts.0.now ++ parts.1.now) × (length parts.0.now ≡ 32)) }
    ensures none { IfNone result ((digest behind : List ℕ) → length digest ≡ 32 → bytes.now ≢ digest ++ behind) }
{
    if bytes.len() < 32 {
        return None;
    }
    Some(bytes.split_at(32))
}

/// The bytes behind a plan's letters and its version. `None` where it doesn't begin with them.
pub(crate) fn behind_letters(bytes: &[u8]) -> Option<&[u8]>
    ensures some { IfSome result (λ behind. bytes.now ≡ plan_letters ++ behind.now) }
    ensures none { IfNone result ((behind : List ℕ) → bytes.now ≢ plan_letters ++ behind) }
{
    if bytes.len() < 6 {
        return None;
    }
    let (letters, behind) = bytes.split_at(6);
    if letters == b"I83P\x00\x01".as_slice() {
        Some(behind)
    } else {
        None
    }
}

/// Appends a number in four bytes, the highest first.
pub(crate) fn add_number(text: &mut Vec<u8>, number: u32) -> Result<(), AllocError>
    ensures { OnOk result (text.new.items ≡ text.old.items ++ big_bytes 4 number) }
{
    let mut bytes = [0u8; 4];
    BigEndian::write_u32(&mut bytes, number);
    text.extend_from_slice(&bytes)
}
