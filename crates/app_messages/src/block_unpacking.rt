ghost use Rattle.std.specs.Prelude.{OnOk, IfOk, IfErr, List, ℕ, map};
ghost use Rattle.file_listing.specs.BlockLines.{AreTextsOf};
ghost use Rattle.file_devices.specs.Holding.{IsThere};
ghost use Rattle.app_messages.specs.Unpacked.{IsBlockFault, IsBlockUnpacked, IsTextsFault};

use crate::block_fault::BlockFault;
use app_jobs::JobFault;
use file_devices::{Files, read_file};
use file_laws::BatchFault;
use file_listing::texts_of_blocks;
use std::alloc::Global;

/// The bodies of the block of this number, from 0 on, of the file of blocks of this name, one a line, in hexadecimal. The file is read alone,
/// and to its end. It fails with the first fault of the file; where it has no such block; where a call on it fails; or where memory runs out.
pub fn unpack_block<F: Files>(
    alloc: Global,
    files: &F,
    name: &str,
    number: usize,
) -> Result<Vec<u8>, BlockFault>
    ensures lines { IfOk result (λ text. IsBlockUnpacked (F.is_known files.now) (F.holds files.now) name.now number text.items) }
    ensures fault { IfErr result (IsBlockFault (F.holds files.now) (F.failing files.now) name.now number) }
{
    let mut texts = open_blocks(alloc, files, name)?;
    let count = texts.len();
    if count <= number {
        return Err(BlockFault::Number(count));
    }
    Ok(texts.swap_remove(number))
}

// The texts of the blocks of the file of this name.
fn open_blocks<F: Files>(alloc: Global, files: &F, name: &str) -> Result<Vec<Vec<u8>>, JobFault>
    ensures there { OnOk result (F.is_known files.now → IsThere (F.holds files.now) name.now) }
    ensures texts { IfOk result (λ texts. (bytes : List ℕ) → F.holds files.now name.now bytes → AreTextsOf bytes (map (λ text. text.items) texts.items)) }
    ensures fault { IfErr result (IsTextsFault (F.holds files.now) (F.failing files.now) name.now) }
{
    let bytes = read_file(alloc, files, name)?;
    match texts_of_blocks(alloc, &bytes) {
        Ok(texts) => Ok(texts),
        Err(BatchFault::OutOfMemory) => Err(JobFault::OutOfMemory),
        Err(fault) => Err(JobFault::Batch(fault)),
    }
}
