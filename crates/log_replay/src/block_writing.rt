ghost use Rattle.std.specs.Prelude.{◌≡◌, ◌≤◌, ◌++◌, length, IfErr, IfOk, OnOk};
ghost use Rattle.std.specs.List.{AllByRecursion};
ghost use Rattle.file_batch.specs.Words.{AreReplyBodies, IsReplyBody, block_replies_magic, block_text, head_text};
ghost use Rattle.log_replay.specs.Writing.{Writes};

use crate::replay_fault::ReplayFault;
use file_batch::{add_head, add_long, add_replies, put_all};
use file_devices::Sink;
use issuer_rows::ReplyBody;
use std::alloc::{AllocError, Global};

// Writes all of the bytes.
fn write<W: Sink>(sink: &mut W, bytes: &[u8]) -> Result<(), ReplayFault>
    ensures sink { Writes W.is_known W.may_fail sink.old sink.new result }
    ensures ok { OnOk result (W.is_known sink.old → W.written sink.new ≡ W.written sink.old ++ bytes.now) }
{
    match put_all(sink, bytes) {
        Ok(()) => Ok(()),
        Err(_) => Err(ReplayFault::Unwritable),
    }
}

/// Writes the head of a file of so many blocks of replies.
pub(crate) fn write_head<W: Sink>(
    alloc: Global,
    blocks: u32,
    sink: &mut W,
) -> Result<(), ReplayFault>
    ensures sink { Writes W.is_known W.may_fail sink.old sink.new result }
    ensures ok { OnOk result (W.is_known sink.old → W.written sink.new ≡ W.written sink.old ++ head_text block_replies_magic blocks) }
{
    let mut text = Vec::new(alloc);
    add_head(&mut text, b"I83T", blocks)?;
    write(sink, &text)
}

// The text of a block of replies.
fn text_of_block(alloc: Global, replies: &[ReplyBody]) -> Result<Vec<u8>, AllocError>
    requires { length replies.now ≤ 65536 }
    ensures text { IfOk result (λ text. text.items ≡ block_text replies.now) }
    ensures bodies { OnOk result (AllByRecursion IsReplyBody replies.now) }
{
    let mut text = Vec::new(alloc);
    let mut reply = Vec::new(alloc);
    add_long(&mut text, replies.len() as u32)?;
    add_replies(&mut text, &mut reply, replies)?;
    Ok(text)
}

/// Writes a block of replies.
pub(crate) fn write_block<W: Sink>(
    alloc: Global,
    replies: &[ReplyBody],
    sink: &mut W,
) -> Result<(), ReplayFault>
    requires { length replies.now ≤ 65536 }
    ensures sink { Writes W.is_known W.may_fail sink.old sink.new result }
    ensures ok { OnOk result (W.is_known sink.old → W.written sink.new ≡ W.written sink.old ++ block_text replies.now) }
    ensures bodies { OnOk result (AreReplyBodies replies.now) }
{
    let text = text_of_block(alloc, replies)?;
    write(sink, &text)
}
