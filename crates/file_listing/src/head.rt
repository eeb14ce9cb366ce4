ghost use Rattle.std.specs.Prelude.{◌≡◌, Ok, Err, IfOk, IfErr};
ghost use Rattle.file_laws.specs.Blocks.{block_count_at, block_head_at, blocks_magic};
ghost use Rattle.file_laws.specs.Reading.{batch_magic, count_at, head_at, magic_at, version_at};

use crate::fields::{field_at, long_at, short_at};
use file_laws::BatchFault;

// The bytes behind these four letters.
#[tactic(auto, unfolding(file_laws::specs::Reading::magic_at))]
fn behind_letters<'a>(letters: &[u8], bytes: &'a [u8]) -> Result<&'a [u8], BatchFault>
    ensures ok { IfOk result (λ behind. magic_at letters.now bytes.now ≡ Ok (letters.now, behind.now)) }
    ensures err { IfErr result (λ fault. magic_at letters.now bytes.now ≡ Err fault) }
{
    let (found, behind) = match field_at(bytes, 4) {
        Ok(parts) => parts,
        Err(fault) => return Err(fault),
    };
    if found != letters {
        return Err(BatchFault::Magic);
    }
    Ok(behind)
}

// The bytes behind version 1.
#[tactic(auto, unfolding(file_laws::specs::Reading::version_at))]
fn behind_version(bytes: &[u8]) -> Result<&[u8], BatchFault>
    ensures ok { IfOk result (λ behind. version_at bytes.now ≡ Ok (1, behind.now)) }
    ensures err { IfErr result (λ fault. version_at bytes.now ≡ Err fault) }
{
    match short_at(bytes) {
        Ok((1, behind)) => Ok(behind),
        Ok(_) => Err(BatchFault::Version),
        Err(fault) => Err(fault),
    }
}

/// How many bodies follow, and the bytes behind that.
#[tactic(auto, unfolding(file_laws::specs::Reading::count_at))]
pub(crate) fn count_at(bytes: &[u8]) -> Result<(u32, &[u8]), BatchFault>
    ensures ok { IfOk result (λ parts. count_at bytes.now ≡ Ok (parts.0, parts.1.now)) }
    ensures err { IfErr result (λ fault. count_at bytes.now ≡ Err fault) }
{
    let (count, behind) = match long_at(bytes) {
        Ok(parts) => parts,
        Err(fault) => return Err(fault),
    };
    if count > 65_536 {
        return Err(BatchFault::Count);
    }
    Ok((count, behind))
}

/// How many bodies a batch announces, and the bytes behind its head.
#[tactic(auto, unfolding(file_laws::specs::Reading::head_at))]
pub(crate) fn head_at(bytes: &[u8]) -> Result<(u32, &[u8]), BatchFault>
    ensures ok { IfOk result (λ parts. head_at batch_magic bytes.now ≡ Ok (parts.0, parts.1.now)) }
    ensures err { IfErr result (λ fault. head_at batch_magic bytes.now ≡ Err fault) }
{
    let versioned = match behind_letters(b"I83B", bytes) {
        Ok(behind) => behind,
        Err(fault) => return Err(fault),
    };
    let counted = match behind_version(versioned) {
        Ok(behind) => behind,
        Err(fault) => return Err(fault),
    };
    count_at(counted)
}

// How many blocks follow, and the bytes behind that.
#[tactic(auto, unfolding(file_laws::specs::Blocks::block_count_at))]
fn block_count_at(bytes: &[u8]) -> Result<(u32, &[u8]), BatchFault>
    ensures ok { IfOk result (λ parts. block_count_at bytes.now ≡ Ok (parts.0, parts.1.now)) }
    ensures err { IfErr result (λ fault. block_count_at bytes.now ≡ Err fault) }
{
    let (count, behind) = match long_at(bytes) {
        Ok(parts) => parts,
        Err(fault) => return Err(fault),
    };
    if count > 1_000 {
        return Err(BatchFault::Blocks);
    }
    Ok((count, behind))
}

/// How many blocks a block file announces, and the bytes behind its head.
#[tactic(auto, unfolding(file_laws::specs::Blocks::block_head_at))]
pub(crate) fn block_head_at(bytes: &[u8]) -> Result<(u32, &[u8]), BatchFault>
    ensures ok { IfOk result (λ parts. block_head_at blocks_magic bytes.now ≡ Ok (parts.0, parts.1.now)) }
    ensures err { IfErr result (λ fault. block_head_at blocks_magic bytes.now ≡ Err fault) }
{
    let versioned = match behind_letters(b"I83M", bytes) {
        Ok(behind) => behind,
        Err(fault) => return Err(fault),
    };
    let counted = match behind_version(versioned) {
        Ok(behind) => behind,
        Err(fault) => return Err(fault),
    };
    block_count_at(counted)
}
