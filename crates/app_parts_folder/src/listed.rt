ghost use Rattle.std.specs.Prelude.{◌≡◌, ◌≢◌, ◌↔◌, ◌*◌, ◌<◌, ◌≤◌, ◌++◌, ℕ, List, length, All, IfNone, IfOk, IfSome, IsTrue};
ghost use Rattle.std.specs.List.{flat_map};
ghost use Rattle.app_parts_folder.specs.PlanTexts.{AreDigests, AreListed, digests_text, listed_text};
ghost use Rattle.app_parts_folder.specs.declared.part_digests.PartDigests.{PartDigests as Digests};

use crate::part_digests::PartDigests;
use std::alloc::{AllocError, Global};

/// The digests of so many parts, and the parts of so many messages. `None` where the bytes don't list these.
pub(crate) fn read_listed(
    alloc: Global,
    count: u32,
    messages: u32,
    bytes: &[u8],
) -> Result<Option<(Vec<PartDigests>, Vec<u32>)>, AllocError>
    ensures some { IfOk result (λ read. IfSome read (λ listed. AreListed count messages listed.0.items listed.1.items
        × (bytes.now ≡ listed_text listed.0.items listed.1.items))) }
    ensures none { IfOk result (λ read. IfNone read ((digests : List Digests) (parts : List ℕ) → AreListed count messages digests parts
        → bytes.now ≢ listed_text digests parts)) }
{
    if count == 0 || count > 64 || messages > 65_536 {
        return Ok(None);
    }
    if bytes.len() != 64 * count as usize + messages as usize {
        return Ok(None);
    }
    let (digests, behind) = split_digests(alloc, count, bytes)?;
    if !are_below(behind, count) {
        return Ok(None);
    }
    let parts = numbers_of(alloc, behind)?;
    Ok(Some((digests, parts)))
}

// Whether every byte is a part of so many.
fn are_below(bytes: &[u8], count: u32) -> bool
    ensures { IsTrue result ↔ All (λ byte. byte < count) bytes.now }
{
    bytes.iter().all(|byte| u32::from(*byte) < count)
}

// The bytes as numbers.
fn numbers_of(alloc: Global, bytes: &[u8]) -> Result<Vec<u32>, AllocError>
    ensures { IfOk result (λ numbers. numbers.items ≡ bytes.now) }
{
    let mut numbers = Vec::with_capacity(alloc, bytes.len())?;
    for byte in bytes {
        numbers.push(u32::from(*byte))?;
    }
    Ok(numbers)
}

// The digests of so many parts, and the bytes behind them.
fn split_digests(
    alloc: Global,
    count: u32,
    bytes: &[u8],
) -> Result<(Vec<PartDigests>, &[u8]), AllocError>
    requires long { 64 * count ≤ length bytes.now }
    ensures is { IfOk result (λ parts. bytes.now ≡ flat_map digests_text parts.0.items ++ parts.1.now) }
    ensures each { IfOk result (λ parts. length parts.0.items ≡ count) }
    ensures digest { IfOk result (λ parts. All AreDigests parts.0.items) }
{
    let mut digests = Vec::with_capacity(alloc, count as usize)?;
    let mut rest = bytes;
    for _ in 0..count {
        let (one, behind) = split_part(rest);
        digests.push(one)?;
        rest = behind;
    }
    Ok((digests, rest))
}

// The digests of a part, and the bytes behind them.
fn split_part(bytes: &[u8]) -> (PartDigests, &[u8])
    requires long { 64 ≤ length bytes.now }
    ensures is { bytes.now ≡ digests_text result.0 ++ result.1.now }
    ensures digest { AreDigests result.0 }
{
    let (front, rest) = bytes.split_at(32);
    let (back, behind) = rest.split_at(32);
    let mut digests = PartDigests {
        book: [0; 32],
        batch: [0; 32],
    };
    digests.book.copy_from_slice(front);
    digests.batch.copy_from_slice(back);
    (digests, behind)
}
