ghost use Rattle.std.specs.Prelude.{◌≡◌, ◌<◌, ◌≤◌, ◌^◌, ◌++◌, [], length, All, IfErr, IsTrue, OnOk, OnErr};
ghost use Rattle.std.specs.List.{AllByRecursion};
ghost use Rattle.byteorder.specs.Endian.{big_bytes};
ghost use Rattle.file_batch.specs.Device.{UsesDevice};
ghost use Rattle.file_laws.specs.Files.{framed, head_text};
ghost use Rattle.file_batch.specs.Writing.{AppendsPart, Moves, items_text};
ghost use Rattle.file_laws.specs.BatchFault.{is_of_bytes};

use crate::file_item::FileItem;
use byteorder::{BigEndian, ByteOrder};
use file_devices::Sink;
use file_laws::BatchFault;
use std::alloc::AllocError;

/// How many bytes are written at once, at least.
pub(crate) const PIECE: usize = 65_536;

/// Writes all of the bytes. After a fault a beginning of them was written; it is `Device`, exactly where a call of the sink failed.
pub fn put_all<W: Sink>(sink: &mut W, bytes: &[u8]) -> Result<(), BatchFault>
    ensures device { UsesDevice W.is_known W.has_failed W.may_fail sink.old sink.new result }
    ensures ok { OnOk result (W.is_known sink.old → W.written sink.new ≡ W.written sink.old ++ bytes.now) }
    ensures err { OnErr result (W.is_known sink.old → AppendsPart (W.written sink.old) (W.written sink.new) bytes.now) }
    ensures fault { IfErr result (λ e. e ≡ BatchFault.Device) }
{
    let mut rest = bytes;
    while !rest.is_empty() {
        match sink.put(rest) {
            Ok(0) => return Err(BatchFault::Device),
            Ok(count) => rest = &rest[count..],
            Err(_) => return Err(BatchFault::Device),
        }
    }
    Ok(())
}

/// Writes the bytes that are about to be written, where they make a piece.
pub(crate) fn put_piece<W: Sink>(sink: &mut W, out: &mut Vec<u8>) -> Result<(), BatchFault>
    ensures device { UsesDevice W.is_known W.has_failed W.may_fail sink.old sink.new result }
    ensures ok { OnOk result (W.is_known sink.old → Moves (W.written sink.old) (W.written sink.new) out.old.items out.new.items) }
    ensures err { OnErr result (W.is_known sink.old → AppendsPart (W.written sink.old) (W.written sink.new) out.old.items) }
    ensures fault { IfErr result (λ e. e ≡ BatchFault.Device) }
{
    if out.len() < PIECE {
        return Ok(());
    }
    put_all(sink, out)?;
    out.clear();
    Ok(())
}

// Appends a number in two bytes.
fn add_short(out: &mut Vec<u8>, number: u16) -> Result<(), AllocError>
    ensures { OnOk result (out.new.items ≡ out.old.items ++ big_bytes 2 number) }
{
    let mut bytes = [0u8; 2];
    BigEndian::write_u16(&mut bytes, number);
    out.extend_from_slice(&bytes)
}

/// Appends a number in four bytes, the highest first. Memory can run out.
pub fn add_long(out: &mut Vec<u8>, number: u32) -> Result<(), AllocError>
    ensures { OnOk result (out.new.items ≡ out.old.items ++ big_bytes 4 number) }
{
    let mut bytes = [0u8; 4];
    BigEndian::write_u32(&mut bytes, number);
    out.extend_from_slice(&bytes)
}

/// Appends the head of a file: its letters, version 1 in two bytes and a count in four. Memory can run out.
#[tactic(auto, unfolding(file_laws::specs::Files::head_text))]
pub fn add_head(out: &mut Vec<u8>, magic: &[u8], count: u32) -> Result<(), AllocError>
    ensures { OnOk result (out.new.items ≡ out.old.items ++ head_text magic.now count) }
{
    out.extend_from_slice(magic)?;
    add_short(out, 1)?;
    add_long(out, count)
}

/// Appends a body behind its length.
pub(crate) fn add_framed(out: &mut Vec<u8>, body: &[u8]) -> Result<(), AllocError>
    requires { length body.now < 2 ^ 16 }
    ensures { OnOk result (out.new.items ≡ out.old.items ++ framed body.now) }
{
    add_short(out, body.len() as u16)?;
    out.extend_from_slice(body)
}

/// Writes the text of a file with these letters and these items, a piece at a time, over memory in which nothing is about to be written,
/// and memory for the text of one item.
pub(crate) fn put_items<T: FileItem, W: Sink>(
    out: &mut Vec<u8>,
    text: &mut Vec<u8>,
    magic: &[u8],
    items: &[T],
    sink: &mut W,
) -> Result<(), BatchFault>
    requires none { out.old.items ≡ [] }
    requires count { length items.now ≤ 65536 }
    requires each { All T.fits items.now }
    ensures device { UsesDevice W.is_known W.has_failed W.may_fail sink.old sink.new result }
    ensures ok { OnOk result (W.is_known sink.old → W.written sink.new ≡ W.written sink.old ++ items_text T.text magic.now items.now) }
    ensures err { OnErr result (W.is_known sink.old
        → AppendsPart (W.written sink.old) (W.written sink.new) (items_text T.text magic.now items.now)) }
    ensures fault { IfErr result (λ e. ¬ IsTrue (is_of_bytes e)) }
    ensures holds { OnOk result (AllByRecursion T.holds items.now) }
{
    add_head(out, magic, items.len() as u32)?;
    for item in items {
        item.add(out, text)?;
        put_piece(sink, out)?;
    }
    put_all(sink, out)
}
