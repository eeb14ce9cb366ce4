ghost use Rattle.std.specs.Prelude.{◌≡◌, ◌≤◌, ℕ, List, Ok, IfOk, IfErr, OnOk, length, map, string_bytes};
ghost use Rattle.std.specs.List.{AllByRecursion};
ghost use Rattle.file_batch.specs.Bodies.{bytes_of};
ghost use Rattle.file_batch.specs.Words.{AreBodies, IsThere};
ghost use Rattle.file_listing.specs.BlockText.{AreBlocksOfBodies};
ghost use Rattle.app_messages.specs.Handed.{bodies_of_blocks};
ghost use Rattle.app_messages.specs.Packed.{AreThere, HasBodies, HaveBlocks, HaveBodies, IsBlocksFault, IsBodiesFault, IsOneTextFault, IsTextFault};

use app_jobs::JobFault;
use file_batch::BatchFault;
use file_devices::{Files, read_file};
use file_listing::read_bodies;
use std::alloc::Global;

/// The bodies of the texts of these names, one text's behind another's.
pub(crate) fn open_texts<F: Files>(
    alloc: Global,
    files: &F,
    names: &[String],
) -> Result<Vec<Vec<u8>>, JobFault>
    ensures fit { IfOk result (λ bodies. AreBodies (bytes_of bodies.items)) }
    ensures there { OnOk result (F.is_known files.now → AreThere (F.holds files.now) (map string_bytes names.now)) }
    ensures bodies { IfOk result (λ bodies. HaveBodies (F.holds files.now) (map string_bytes names.now) (bytes_of bodies.items)) }
    ensures fault { IfErr result (IsBodiesFault (F.holds files.now) (F.failing files.now) 0 (map string_bytes names.now)) }
{
    let mut bodies = Vec::new(alloc);
    let mut rest = names;
    while let Some((name, more)) = rest.split_first() {
        let mut own = open_text(alloc, files, name.as_str())?;
        if bodies.len() + own.len() > 65_536 {
            return Err(JobFault::Batch(BatchFault::Count));
        }
        bodies.append(&mut own)?;
        rest = more;
    }
    Ok(bodies)
}

/// The bodies of the texts of these names, of each text its own.
pub(crate) fn open_blocks<F: Files>(
    alloc: Global,
    files: &F,
    names: &[String],
) -> Result<Vec<Vec<Vec<u8>>>, JobFault>
    ensures fit { IfOk result (λ blocks. AreBlocksOfBodies (bodies_of_blocks blocks.items)) }
    ensures there { OnOk result (F.is_known files.now → AreThere (F.holds files.now) (map string_bytes names.now)) }
    ensures blocks { IfOk result (λ blocks. HaveBlocks (F.holds files.now) (map string_bytes names.now) (bodies_of_blocks blocks.items)) }
    ensures fault { IfErr result (IsBlocksFault (F.holds files.now) (F.failing files.now) (map string_bytes names.now)) }
{
    if names.len() > 1_000 {
        return Err(JobFault::Batch(BatchFault::Blocks));
    }
    open_each(alloc, files, names)
}

// The same, where they are no more than a file may have blocks.
fn open_each<F: Files>(
    alloc: Global,
    files: &F,
    names: &[String],
) -> Result<Vec<Vec<Vec<u8>>>, JobFault>
    requires few { length names.now ≤ 1000 }
    ensures fit { IfOk result (λ blocks. AreBlocksOfBodies (bodies_of_blocks blocks.items)) }
    ensures there { OnOk result (F.is_known files.now → AreThere (F.holds files.now) (map string_bytes names.now)) }
    ensures blocks { IfOk result (λ blocks. HaveBlocks (F.holds files.now) (map string_bytes names.now) (bodies_of_blocks blocks.items)) }
    ensures fault { IfErr result (IsBlocksFault (F.holds files.now) (F.failing files.now) (map string_bytes names.now)) }
{
    let mut blocks = Vec::new(alloc);
    let mut rest = names;
    while let Some((name, more)) = rest.split_first() {
        blocks.push(open_text(alloc, files, name.as_str())?)?;
        rest = more;
    }
    Ok(blocks)
}

// The bodies of the text of this name.
fn open_text<F: Files>(alloc: Global, files: &F, name: &str) -> Result<Vec<Vec<u8>>, JobFault>
    ensures fit { IfOk result (λ bodies. AreBodies (bytes_of bodies.items)) }
    ensures there { OnOk result (F.is_known files.now → IsThere (F.holds files.now) name.now) }
    ensures fault { IfErr result (IsTextFault (F.holds files.now) (F.failing files.now) name.now) }
    ensures bodies { IfOk result (λ bodies. HasBodies (F.holds files.now) name.now (bytes_of bodies.items)) }
{
    let lines = read_file(alloc, files, name)?;
    let bodies = read_bodies(alloc, &lines)?;
    Ok(bodies)
}
