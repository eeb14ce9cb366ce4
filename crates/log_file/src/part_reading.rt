//! The next part of a log, as it stands ahead.

ghost use Rattle.std.specs.Prelude.{◌≡◌, ◌≢◌, ◌↔◌, ◌+◌, ◌<◌, ◌≤◌, ◌^◌, ◌++◌, ℕ, length, take, All, IfOk, IfErr, IsTrue};
ghost use Rattle.file_laws.specs.LogFault.{is_of_bytes};
ghost use Rattle.file_laws.specs.Texts.{entry_head};
ghost use Rattle.log_file.specs.Ahead.{ahead, held};
ghost use Rattle.log_file.specs.Device.{UsesFile};
ghost use Rattle.log_file.specs.Parts.{IsChecked, IsPart};

use crate::bodies::Bodies;
use crate::chain::digest_of;
use crate::input::Input;
use crate::part::{Checked, Part, ReadEntry};
use crate::splitting::payload_size;
use file_devices::Source;
use file_laws::LogFault;
use std::alloc::{AllocError, Global};

/// Reads what stands next behind the entry of this digest. Behind an entry the next one can be read.
pub(crate) fn read_part<R: Source + Drop>(
    alloc: Global,
    input: &mut Input<R>,
    before: &[u8; 32],
) -> Result<Part, LogFault>
    ensures file { UsesFile R.is_known R.has_failed R.may_fail input.old.source input.new.source result }
    ensures fault { IfErr result (λ e. ¬ IsTrue (is_of_bytes e)) }
    ensures part { IfOk result (λ part. R.is_known input.old.source → IsPart before.now (ahead R.remaining input.old) (ahead R.remaining input.new) part) }
{
    if !input.fill(8)? {
        return Ok(Part::Torn(input.held().len() as u64));
    }
    match payload_size(input.held()) {
        Some(size) => read_entry(alloc, input, before, size),
        None => read_zeros(input),
    }
}

// Reads what stands behind the head of an entry, which is held.
fn read_entry<R: Source + Drop>(
    alloc: Global,
    input: &mut Input<R>,
    before: &[u8; 32],
    size: u32,
) -> Result<Part, LogFault>
    requires long { 8 ≤ length (held input.old) }
    requires head { take 8 (held input.old) ≡ entry_head size }
    ensures file { UsesFile R.is_known R.has_failed R.may_fail input.old.source input.new.source result }
    ensures fault { IfErr result (λ e. ¬ IsTrue (is_of_bytes e)) }
    ensures part { IfOk result (λ part. R.is_known input.old.source → IsPart before.now (ahead R.remaining input.old) (ahead R.remaining input.new) part) }
{
    let whole = size as usize + 40;
    if !input.fill(whole)? {
        return Ok(Part::Torn(input.held().len() as u64));
    }
    let (_, behind) = input.held().split_at(8);
    let (payload, behind) = behind.split_at(size as usize);
    let (digest, _) = behind.split_at(32);
    match check_entry(alloc, payload, digest, before)? {
        Checked::Whole(bodies) => {
            let mut own = [0u8; 32];
            own.copy_from_slice(digest);
            input.skip(whole);
            Ok(Part::Entry(ReadEntry {
                bodies,
                digest: own,
                size: whole as u64,
            }))
        }
        Checked::NoBodies => Ok(Part::Broken),
        Checked::Unmatched => {
            if input.fill(whole + 1)? {
                Ok(Part::Broken)
            } else {
                Ok(Part::Torn(whole as u64))
            }
        }
    }
}

// Whether this payload has bodies, and this digest.
fn check_entry(
    alloc: Global,
    payload: &[u8],
    digest: &[u8],
    before: &[u8; 32],
) -> Result<Checked, AllocError>
    ensures { IfOk result (IsChecked before.now payload.now digest.now) }
{
    if digest_of(before, payload).as_slice() != digest {
        return Ok(Checked::Unmatched);
    }
    match Bodies::of_payload(alloc, payload)? {
        Some(bodies) => Ok(Checked::Whole(bodies)),
        None => Ok(Checked::NoBodies),
    }
}

// Reads to the end where zeros alone are left, since no head of an entry stands there.
fn read_zeros<R: Source + Drop>(input: &mut Input<R>) -> Result<Part, LogFault>
    requires long { 8 ≤ length (held input.old) }
    requires head { (size : ℕ) → size < 2 ^ 32 → take 8 (held input.old) ≢ entry_head size }
    ensures file { UsesFile R.is_known R.has_failed R.may_fail input.old.source input.new.source result }
    ensures fault { IfErr result (λ e. ¬ IsTrue (is_of_bytes e)) }
    ensures part { IfOk result (λ part. (before : _) → R.is_known input.old.source → IsPart before (ahead R.remaining input.old) (ahead R.remaining input.new) part) }
{
    let mut count: u64 = 0;
    for _ in 0..u64::MAX {
        let held = input.held();
        if !are_zeros(held) {
            return Ok(Part::Broken);
        }
        let size = held.len();
        let Some(more) = count.checked_add(size as u64) else {
            return Err(LogFault::OutOfMemory);
        };
        count = more;
        input.skip(size);
        if !input.fill(1)? {
            return Ok(Part::Torn(count));
        }
    }
    // No file has so many bytes.
    Err(LogFault::OutOfMemory)
}

/// Whether every byte is 0.
pub(crate) fn are_zeros(bytes: &[u8]) -> bool
    ensures { IsTrue result ↔ All (λ byte. byte ≡ 0) bytes.now }
{
    bytes.iter().all(|byte| *byte == 0)
}
