//! Block files and their replies, read whole.

ghost use Rattle.std.specs.Prelude.{◌≡◌, ◌≤◌, [], length, vec_len, IfOk, OnOk};
ghost use Rattle.std.specs.List.{All};
ghost use Rattle.file_batch.specs.Device.{UsesDevice};
ghost use Rattle.file_blocks.specs.BlockFiles.{GivesBlocks, GivesBlockFile};
ghost use Rattle.file_batch.specs.Window.{ahead};

use crate::blocks::{read_block, read_block_head};
use file_batch::Window;
use file_devices::Source;
use file_laws::BatchFault;
use issuer_rows::Frame;
use std::alloc::Global;

// The frames of the next blocks, so many.
fn read_blocks_of<R: Source>(
    window: &mut Window,
    alloc: Global,
    source: &mut R,
    count: u32,
) -> Result<Vec<Vec<Frame>>, BatchFault>
    ensures device { UsesDevice R.is_known R.has_failed R.may_fail source.old source.new result }
    ensures count { IfOk result (λ blocks. vec_len blocks ≡ count) }
    ensures each { IfOk result (λ blocks. All (λ block. length block.items ≤ 65536) blocks.items) }
    ensures gives { R.is_known source.old → GivesBlocks count (ahead window.old (R.remaining source.old)) result (ahead window.new (R.remaining source.new)) }
{
    let mut blocks = Vec::new(alloc);
    for _ in 0..count {
        let block = read_block(window, alloc, source)?;
        blocks.push(block)?;
    }
    Ok(blocks)
}

/// Reads a block file, all of the source: a frame for each body of each block, in order, or the first fault in reading
/// order. The source is at its end then. `Device` is the fault exactly where a call of the source failed; and memory
/// can run out.
pub fn read_blocks<R: Source>(alloc: Global, source: &mut R) -> Result<Vec<Vec<Frame>>, BatchFault>
    ensures device { UsesDevice R.is_known R.has_failed R.may_fail source.old source.new result }
    ensures count { IfOk result (λ blocks. length blocks.items ≤ 1000) }
    ensures each { IfOk result (λ blocks. All (λ block. length block.items ≤ 65536) blocks.items) }
    ensures gives { R.is_known source.old → GivesBlockFile (R.remaining source.old) result }
    ensures end { OnOk result (R.is_known source.old → R.remaining source.new ≡ []) }
{
    let mut window = Window::new(alloc)?;
    let count = read_block_head(&mut window, source, b"I83M")?;
    let blocks = read_blocks_of(&mut window, alloc, source, count)?;
    window.read_end(source)?;
    Ok(blocks)
}
