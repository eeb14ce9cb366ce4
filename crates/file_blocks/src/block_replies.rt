//! The reply files of block files, read whole.

ghost use Rattle.std.specs.Prelude.{◌≡◌, ◌+◌, ◌<◌, ◌≤◌, ◌^◌, [], length, vec_len, IfOk, OnOk};
ghost use Rattle.std.specs.List.{All};
ghost use Rattle.file_batch.specs.Device.{UsesDevice};
ghost use Rattle.file_blocks.specs.BlockFiles.{GivesReplyBlock, GivesReplyBlocks, GivesBlockReplyFile};
ghost use Rattle.file_batch.specs.Window.{ahead};

use crate::blocks::read_block_head;
use file_batch::Window;
use file_devices::Source;
use file_laws::BatchFault;
use issuer_rows::ReplyBody;
use std::alloc::Global;

// The replies of the next block, whose bodies are counted from this number on.
fn read_reply_block<R: Source>(
    window: &mut Window,
    alloc: Global,
    source: &mut R,
    from: u32,
) -> Result<Vec<ReplyBody>, BatchFault>
    requires fits { from + 65536 < 2 ^ 32 }
    ensures device { UsesDevice R.is_known R.has_failed R.may_fail source.old source.new result }
    ensures count { IfOk result (λ block. vec_len block ≤ 65536) }
    ensures gives { R.is_known source.old → GivesReplyBlock from (ahead window.old (R.remaining source.old)) result (ahead window.new (R.remaining source.new)) }
{
    let count = window.read_count(source)?;
    window.read_replies(alloc, source, from, count)
}

// The replies of the next blocks, so many. The bodies of all of them are counted from 0.
fn read_reply_blocks<R: Source>(
    window: &mut Window,
    alloc: Global,
    source: &mut R,
    count: u32,
) -> Result<Vec<Vec<ReplyBody>>, BatchFault>
    requires most { count ≤ 1000 }
    ensures device { UsesDevice R.is_known R.has_failed R.may_fail source.old source.new result }
    ensures count { IfOk result (λ blocks. vec_len blocks ≡ count) }
    ensures each { IfOk result (λ blocks. All (λ block. length block.items ≤ 65536) blocks.items) }
    ensures gives { R.is_known source.old → GivesReplyBlocks count (ahead window.old (R.remaining source.old)) result (ahead window.new (R.remaining source.new)) }
{
    let mut blocks = Vec::new(alloc);
    let mut from = 0;
    for _ in 0..count {
        let block = read_reply_block(window, alloc, source, from)?;
        from += block.len() as u32;
        blocks.push(block)?;
    }
    Ok(blocks)
}

/// Reads the reply file of a block file, all of the source: `I83T`, version 1, the number of blocks, at most 1,000, and for each block
/// its count and its replies as in a reply file. Returns the replies of each block, in order, or the first fault in reading order. A body
/// that is the text of no reply and of no fault is `Body` with its number, counted from 0 over the whole file. The source is at its end
/// then. `Device` is the fault exactly where a call of the source failed; and memory can run out.
pub fn read_block_replies<R: Source>(
    alloc: Global,
    source: &mut R,
) -> Result<Vec<Vec<ReplyBody>>, BatchFault>
    ensures device { UsesDevice R.is_known R.has_failed R.may_fail source.old source.new result }
    ensures count { IfOk result (λ blocks. length blocks.items ≤ 1000) }
    ensures each { IfOk result (λ blocks. All (λ block. length block.items ≤ 65536) blocks.items) }
    ensures gives { R.is_known source.old → GivesBlockReplyFile (R.remaining source.old) result }
    ensures end { OnOk result (R.is_known source.old → R.remaining source.new ≡ []) }
{
    let mut window = Window::new(alloc)?;
    let count = read_block_head(&mut window, source, b"I83T")?;
    let blocks = read_reply_blocks(&mut window, alloc, source, count)?;
    window.read_end(source)?;
    Ok(blocks)
}
