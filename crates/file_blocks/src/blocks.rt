ghost use Rattle.std.specs.Prelude.{◌≡◌, ◌⊎◌, ◌<◌, ◌≤◌, ◌++◌, length, vec_len, IfOk, IfErr, OnOk, OnErr, IsTrue, Err};
ghost use Rattle.std.specs.List.{AllByRecursion};
ghost use Rattle.issuer_rows.specs.declared.frame.Frame.{Frame};
ghost use Rattle.file_batch.specs.Words.{AreReplyBodies, Gives, GivesFrames, IsReplyBody, block_at, block_count_at, block_head_at, block_text, is_of_bytes};
ghost use Rattle.file_batch.specs.Device.{UsesDevice};
ghost use Rattle.file_batch.specs.Writing.{AppendsPart};
ghost use Rattle.file_batch.specs.Window.{ahead};

use file_batch::{Window, add_long, add_replies, put_all};
use file_devices::{Sink, Source};
use file_laws::BatchFault;
use issuer_rows::{Frame, ReplyBody};
use std::alloc::{AllocError, Global};

// The number of blocks.
#[tactic(auto, unfolding(file_laws::specs::Blocks::block_count_at))]
fn read_block_count<R: Source>(window: &mut Window, source: &mut R) -> Result<u32, BatchFault>
    ensures device { UsesDevice R.is_known R.has_failed R.may_fail source.old source.new result }
    ensures memory { IfErr result (λ e. e ≡ BatchFault.OutOfMemory → length window.new.field.items < 4) }
    ensures most { IfOk result (λ n. n ≤ 1000) }
    ensures gives { R.is_known source.old → Gives (λ n. n) result
        (ahead window.new (R.remaining source.new)) (block_count_at (ahead window.old (R.remaining source.old))) }
{
    let count = window.read_long(source)?;
    if count > 1_000 {
        return Err(BatchFault::Blocks);
    }
    Ok(count)
}

/// The head of a file of blocks, and its number of blocks.
#[tactic(auto, unfolding(file_laws::specs::Blocks::block_head_at))]
pub(crate) fn read_block_head<R: Source>(
    window: &mut Window,
    source: &mut R,
    magic: &[u8],
) -> Result<u32, BatchFault>
    ensures device { UsesDevice R.is_known R.has_failed R.may_fail source.old source.new result }
    ensures most { IfOk result (λ n. n ≤ 1000) }
    ensures gives { R.is_known source.old → Gives (λ n. n) result
        (ahead window.new (R.remaining source.new)) (block_head_at magic.now (ahead window.old (R.remaining source.old))) }
{
    window.read_magic(source, magic)?;
    window.read_version(source)?;
    read_block_count(window, source)
}

/// The frames of the next block.
#[tactic(auto, unfolding(file_laws::specs::Blocks::block_at))]
pub(crate) fn read_block<R: Source>(
    window: &mut Window,
    alloc: Global,
    source: &mut R,
) -> Result<Vec<Frame>, BatchFault>
    ensures device { UsesDevice R.is_known R.has_failed R.may_fail source.old source.new result }
    ensures count { IfOk result (λ frames. vec_len frames ≤ 65536) }
    ensures gives { R.is_known source.old → GivesFrames result
        (ahead window.new (R.remaining source.new)) (block_at (ahead window.old (R.remaining source.old))) }
{
    let count = window.read_count(source)?;
    window.read_frames(alloc, source, count)
}

// The text of a block's replies.
fn text_of_block(alloc: Global, replies: &[ReplyBody]) -> Result<Vec<u8>, AllocError>
    requires { length replies.now ≤ 65536 }
    ensures text { IfOk result (λ text. text.items ≡ block_text replies.now) }
    ensures bodies { OnOk result (AllByRecursion IsReplyBody replies.now) }
{
    let mut out = Vec::new(alloc);
    let mut text = Vec::new(alloc);
    add_long(&mut out, replies.len() as u32)?;
    add_replies(&mut out, &mut text, replies)?;
    Ok(out)
}

/// Writes a block's replies. Its text is made before the first byte is written.
pub(crate) fn write_block<W: Sink>(
    alloc: Global,
    replies: &[ReplyBody],
    sink: &mut W,
) -> Result<(), BatchFault>
    requires many { length replies.now ≤ 65536 }
    ensures device { UsesDevice W.is_known W.has_failed W.may_fail sink.old sink.new result }
    ensures ok { OnOk result (W.is_known sink.old → W.written sink.new ≡ W.written sink.old ++ block_text replies.now) }
    ensures err { OnErr result ((sink.new ≡ sink.old) ⊎ ((IsTrue (W.has_failed sink.new) × W.may_fail sink.old)
        × (W.is_known sink.old → AppendsPart (W.written sink.old) (W.written sink.new) (block_text replies.now)))) }
    ensures fault { IfErr result (λ e. ¬ IsTrue (is_of_bytes e)) }
    ensures bodies { OnOk result (AreReplyBodies replies.now) }
{
    let text = text_of_block(alloc, replies)?;
    put_all(sink, &text)
}
