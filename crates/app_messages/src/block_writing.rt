ghost use Rattle.std.specs.Prelude.{◌≡◌, ◌<◌, ◌^◌, ◌++◌, length, IfErr, IfOk, OnOk, IsTrue};
ghost use Rattle.byteorder.specs.Endian.{big_bytes};
ghost use Rattle.file_batch.specs.Bodies.{bytes_of};
ghost use Rattle.file_batch.specs.Device.{UsesDevice};
ghost use Rattle.file_batch.specs.Words.{AreBodies, framed, is_of_bytes};
ghost use Rattle.file_listing.specs.BlockText.{AreBlocksOfBodies, block_file_text, block_text};
ghost use Rattle.app_messages.specs.Handed.{bodies_of_blocks};

use byteorder::{BigEndian, ByteOrder};
use file_batch::{BatchFault, add_head, add_long, put_all};
use file_devices::Sink;
use std::alloc::{AllocError, Global};

/// Writes a block file of these blocks: `I83M`, version 1, how many blocks, and of each how many bodies, and each body behind its length.
/// After `Ok` the sink has this text behind what it had. It fails where a call of the sink fails, or memory runs out.
pub(crate) fn write_blocks<W: Sink>(
    alloc: Global,
    blocks: &[Vec<Vec<u8>>],
    sink: &mut W,
) -> Result<(), BatchFault>
    requires fit { AreBlocksOfBodies (bodies_of_blocks blocks.now) }
    ensures device { UsesDevice W.is_known W.has_failed W.may_fail sink.old sink.new result }
    ensures ok { OnOk result (W.is_known sink.old → W.written sink.new ≡ W.written sink.old ++ block_file_text (bodies_of_blocks blocks.now)) }
    ensures fault { IfErr result (λ fault. ¬ IsTrue (is_of_bytes fault)) }
{
    let text = text_of_blocks(alloc, blocks)?;
    put_all(sink, &text)
}

// The text of a block file of these blocks.
fn text_of_blocks(alloc: Global, blocks: &[Vec<Vec<u8>>]) -> Result<Vec<u8>, AllocError>
    requires fit { AreBlocksOfBodies (bodies_of_blocks blocks.now) }
    ensures { IfOk result (λ text. text.items ≡ block_file_text (bodies_of_blocks blocks.now)) }
{
    let mut text = Vec::new(alloc);
    add_head(&mut text, b"I83M", blocks.len() as u32)?;
    let mut rest = blocks;
    while let Some((block, more)) = rest.split_first() {
        add_block(&mut text, block)?;
        rest = more;
    }
    Ok(text)
}

// Appends how many bodies there are, and each behind its length.
fn add_block(text: &mut Vec<u8>, bodies: &[Vec<u8>]) -> Result<(), AllocError>
    requires fit { AreBodies (bytes_of bodies.now) }
    ensures { OnOk result (text.new.items ≡ text.old.items ++ block_text (bytes_of bodies.now)) }
{
    add_long(text, bodies.len() as u32)?;
    let mut rest = bodies;
    while let Some((body, more)) = rest.split_first() {
        add_framed(text, body)?;
        rest = more;
    }
    Ok(())
}

// Appends a body behind its length.
fn add_framed(text: &mut Vec<u8>, body: &[u8]) -> Result<(), AllocError>
    requires fits { length body.now < 2 ^ 16 }
    ensures { OnOk result (text.new.items ≡ text.old.items ++ framed body.now) }
{
    let mut size = [0u8; 2];
    BigEndian::write_u16(&mut size, body.len() as u16);
    text.extend_from_slice(&size)?;
    text.extend_from_slice(body)
}
