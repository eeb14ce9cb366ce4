ghost use Rattle.std.specs.Prelude.{◌≡◌, ◌<◌, ◌≤◌, ◌^◌, ◌++◌, length, Err, IfErr, IsTrue, OnOk, OnErr};
ghost use Rattle.std.specs.List.{AllByRecursion};
ghost use Rattle.issuer_rows.specs.declared.reply_body.ReplyBody.TheVariants as ReplyBody;
ghost use Rattle.file_batch.specs.Device.{UsesDevice};
ghost use Rattle.file_laws.specs.Files.{reply_text, replies_text};
ghost use Rattle.file_batch.specs.Writing.{AppendsPart};
ghost use Rattle.file_batch.specs.InOrder.{texts_of};
ghost use Rattle.file_laws.specs.Replies.{IsReplyBody, AreReplyBodies};
ghost use Rattle.file_laws.specs.BatchFault.{is_of_bytes};

use crate::file_item::FileItem;
use crate::writing::{PIECE, add_framed, put_items};
use file_devices::Sink;
use file_laws::BatchFault;
use iso_codec::encode_reply;
use issuer_rows::{FrameFault, ReplyBody};
use std::alloc::{AllocError, Global};

// A fault of a body is one whose element is a byte, which its type says: looking at it does no more.
fn fault_in_range(fault: FrameFault)
    ensures { IsReplyBody (ReplyBody.Fault fault) }
{
    let _ = fault.fault().element();
}

// The text of a reply.
fn text_of(text: &mut Vec<u8>, reply: &ReplyBody) -> Result<(), AllocError>
    ensures items { OnOk result (text.new.items ≡ reply_text reply.now) }
    ensures length { OnOk result (length text.new.items < 2 ^ 16) }
    ensures body { OnOk result (IsReplyBody reply.now) }
{
    text.clear();
    match reply {
        ReplyBody::Reply(reply) => {
            text.push(b'R')?;
            encode_reply(reply, text).map_err(|_| AllocError)
        }
        ReplyBody::Fault(fault) => {
            fault_in_range(*fault);
            text.extend_from_slice(&fault.body())
        }
    }
}

impl FileItem for ReplyBody {
    ghost text = { reply_text };

    ghost fits = { λ _. Unit {0} };

    ghost holds = { IsReplyBody };

    fn add(&self, out: &mut Vec<u8>, memory: &mut Vec<u8>) -> Result<(), AllocError> {
        text_of(memory, self)?;
        add_framed(out, memory)
    }
}

/// Appends the texts of replies, each behind its length, two bytes: `R` and its bytes or `F` and five digits of a fault. `text` is
/// memory for one of them. Memory can run out.
pub fn add_replies(
    out: &mut Vec<u8>,
    text: &mut Vec<u8>,
    replies: &[ReplyBody],
) -> Result<(), AllocError>
    ensures text { OnOk result (out.new.items ≡ out.old.items ++ texts_of replies.now) }
    ensures bodies { OnOk result (AllByRecursion IsReplyBody replies.now) }
{
    for reply in replies {
        reply.add(out, text)?;
    }
    Ok(())
}

/// Writes a reply file: `I83R`, version 1, the number of replies, and each behind its length, as `R` and its bytes or
/// `F` and five digits of a fault. After `Ok` the sink has this text and nothing else, after a fault a beginning of
/// it. `Device` is the fault exactly where a call of the sink failed; more than 65,536 replies are `Count`, before the
/// first byte; and memory can run out.
pub fn write_replies<W: Sink>(
    alloc: Global,
    replies: &[ReplyBody],
    sink: &mut W,
) -> Result<(), BatchFault>
    ensures device { UsesDevice W.is_known W.has_failed W.may_fail sink.old sink.new result }
    ensures ok { OnOk result (W.is_known sink.old → W.written sink.new ≡ W.written sink.old ++ replies_text replies.now) }
    ensures err { OnErr result (W.is_known sink.old → AppendsPart (W.written sink.old) (W.written sink.new) (replies_text replies.now)) }
    // What was written is read again as these replies, and as no others.
    ensures bodies { OnOk result (AreReplyBodies replies.now) }
    ensures many { 65536 < length replies.now → (result ≡ Err BatchFault.Count) × (sink.new ≡ sink.old) }
    // As many as a file can have are not written for a device or memory alone.
    ensures fit { length replies.now ≤ 65536 → IfErr result (λ e. ¬ IsTrue (is_of_bytes e)) }
{
    if replies.len() > 65_536 {
        return Err(BatchFault::Count);
    }
    let mut out = Vec::with_capacity(alloc, PIECE)?;
    let mut text = Vec::new(alloc);
    put_items(&mut out, &mut text, b"I83R", replies, sink)
}
