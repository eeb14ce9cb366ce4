ghost use Rattle.std.specs.Prelude.{◌≡◌, ◌≢◌, ℕ, List, IfOk, IfErr, OnOk, OnErr, length, map, string_bytes};
ghost use Rattle.file_devices.specs.Holding.{AreAsTheyWere, IsAsItWas};
ghost use Rattle.app_jobs.specs.Faults.{IsWritingFaultOf};
ghost use Rattle.file_listing.specs.BlockText.{AreBlocksOfBodies, all_bodies, block_file_text};
ghost use Rattle.app_messages.specs.Handed.{bodies_of_blocks};
ghost use Rattle.app_messages.specs.Packed.{ArePackedInBlocks, IsBlockPackingFault};

use crate::block_writing::write_blocks;
use crate::opening::open_blocks;
use crate::placing::put_file;
use app_jobs::JobFault;
use file_devices::Files;
use std::alloc::Global;

/// Makes a block file of texts: a block of the bodies of each. Returns how many bodies there are in all. It fails where there are more than
/// 1,000 texts; with the first fault of the texts, in their order; where the file of the blocks can't be made or written; or where memory
/// runs out. All files are then as they were.
pub fn pack_blocks<F: Files>(
    alloc: Global,
    files: &mut F,
    texts: &[String],
    name: &str,
) -> Result<usize, JobFault>
    ensures packed { IfOk result (ArePackedInBlocks (F.is_known files.old) (F.holds files.old) (F.holds files.new) (map string_bytes texts.now) name.now) }
    ensures fault { IfErr result (IsBlockPackingFault (F.holds files.old) (F.failing files.old) (map string_bytes texts.now) name.now) }
    ensures kept { OnErr result (AreAsTheyWere (F.holds files.old) (F.holds files.new)) }
    // Other files stay as they were.
    ensures others { (other : List ℕ) → other ≢ name.now → IsAsItWas (F.holds files.old) (F.holds files.new) other }
    ensures known { F.is_known files.old → F.is_known files.new }
{
    let blocks = open_blocks(alloc, files, texts)?;
    put_blocks(alloc, files, name, &blocks)?;
    Ok(count_bodies(&blocks))
}

// Puts a file of these blocks in the place of this name.
fn put_blocks<F: Files>(
    alloc: Global,
    files: &mut F,
    name: &str,
    blocks: &[Vec<Vec<u8>>],
) -> Result<(), JobFault>
    requires fit { AreBlocksOfBodies (bodies_of_blocks blocks.now) }
    ensures put { OnOk result (F.is_known files.old → F.holds files.new name.now (block_file_text (bodies_of_blocks blocks.now))) }
    ensures fault { IfErr result (IsWritingFaultOf (F.failing files.old) name.now) }
    ensures kept { OnErr result (AreAsTheyWere (F.holds files.old) (F.holds files.new)) }
    ensures others { (other : List ℕ) → other ≢ name.now → IsAsItWas (F.holds files.old) (F.holds files.new) other }
    ensures known { F.is_known files.old → F.is_known files.new }
{
    let output = write_block_file(alloc, files, name, blocks)?;
    put_file(alloc, files, name, output)
}

// Writes these blocks to a file that can be put in the place of this name.
fn write_block_file<F: Files>(
    alloc: Global,
    files: &F,
    name: &str,
    blocks: &[Vec<Vec<u8>>],
) -> Result<F::Output, JobFault>
    requires fit { AreBlocksOfBodies (bodies_of_blocks blocks.now) }
    ensures written { IfOk result (λ output. F.is_known files.now → F.Output.is_known output × (F.Output.written output ≡ block_file_text (bodies_of_blocks blocks.now))) }
    ensures fault { IfErr result (IsWritingFaultOf (F.failing files.now) name.now) }
{
    let mut output = files.create(name)?;
    match write_blocks(alloc, blocks, &mut output) {
        Ok(()) => Ok(output),
        Err(fault) => Err(JobFault::Batch(fault)),
    }
}

// How many bodies blocks have in all.
fn count_bodies(blocks: &[Vec<Vec<u8>>]) -> usize
    requires fit { AreBlocksOfBodies (bodies_of_blocks blocks.now) }
    ensures { result ≡ length (all_bodies (bodies_of_blocks blocks.now)) }
{
    let mut count = 0;
    let mut rest = blocks;
    while let Some((block, more)) = rest.split_first() {
        count += block.len();
        rest = more;
    }
    count
}
