//! What an audit found, as text.

ghost use Rattle.std.specs.Prelude.{◌≡◌, ◌++◌, IfOk, OnOk};
ghost use Rattle.std.specs.Fmt.{decimal};
ghost use Rattle.app_audit.specs.Texts.{audit_text, block_audit_text, block_reply_text, reply_text, row_text};

use crate::audited::Audit;
use crate::block_audit::BlockAudit;
use issuer_rows::RowKey;
use itoa::Buffer;
use std::alloc::{AllocError, Global};
use stm_journal_text::write_key;

/// What an audit found, in ASCII: `same`, `count differs`, `reply 2 differs`, or `row KEY differs` with the key as a journal writes it.
/// It fails only where memory runs out.
pub fn audit_text(alloc: Global, found: &Audit) -> Result<Vec<u8>, AllocError>
    ensures { IfOk result (λ text. text.items ≡ audit_text found.now) }
{
    let mut text = Vec::new(alloc);
    put_audit(&mut text, found)?;
    Ok(text)
}

/// What an audit of blocks found, in ASCII: as [`audit_text`], but `block 1 reply 2 differs`. It fails only where memory runs out.
pub fn block_audit_text(alloc: Global, found: &BlockAudit) -> Result<Vec<u8>, AllocError>
    ensures { IfOk result (λ text. text.items ≡ block_audit_text found.now) }
{
    let mut text = Vec::new(alloc);
    put_block_audit(&mut text, found)?;
    Ok(text)
}

/// Appends what an audit found.
fn put_audit(text: &mut Vec<u8>, found: &Audit) -> Result<(), AllocError>
    ensures { OnOk result (text.new.items ≡ text.old.items ++ audit_text found.now) }
{
    match found {
        Audit::Same => text.extend_from_slice(b"same"),
        Audit::CountDiffers => text.extend_from_slice(b"count differs"),
        Audit::ReplyDiffers(place) => put_reply(text, *place),
        Audit::BookDiffers(key) => put_row(text, key),
    }
}

/// Appends what an audit of blocks found.
fn put_block_audit(text: &mut Vec<u8>, found: &BlockAudit) -> Result<(), AllocError>
    ensures { OnOk result (text.new.items ≡ text.old.items ++ block_audit_text found.now) }
{
    match found {
        BlockAudit::Same => text.extend_from_slice(b"same"),
        BlockAudit::CountDiffers => text.extend_from_slice(b"count differs"),
        BlockAudit::ReplyDiffers { block, index } => put_block_reply(text, *block, *index),
        BlockAudit::BookDiffers(key) => put_row(text, key),
    }
}

/// Appends the number in decimal.
fn put_number(text: &mut Vec<u8>, number: u32) -> Result<(), AllocError>
    ensures { OnOk result (text.new.items ≡ text.old.items ++ decimal number) }
{
    let mut buffer = Buffer::new();
    text.extend_from_slice(buffer.format(number).as_bytes())
}

/// Appends that the reply at this place differs.
fn put_reply(text: &mut Vec<u8>, place: u32) -> Result<(), AllocError>
    ensures { OnOk result (text.new.items ≡ text.old.items ++ reply_text place) }
{
    text.extend_from_slice(b"reply ")?;
    put_number(text, place)?;
    text.extend_from_slice(b" differs")
}

/// Appends that the reply at this place of this block differs.
fn put_block_reply(text: &mut Vec<u8>, block: u32, index: u32) -> Result<(), AllocError>
    ensures { OnOk result (text.new.items ≡ text.old.items ++ block_reply_text block index) }
{
    text.extend_from_slice(b"block ")?;
    put_number(text, block)?;
    text.extend_from_slice(b" ")?;
    put_reply(text, index)
}

/// Appends that the row of this key differs.
fn put_row(text: &mut Vec<u8>, key: &RowKey) -> Result<(), AllocError>
    ensures { OnOk result (text.new.items ≡ text.old.items ++ row_text key.now) }
{
    text.extend_from_slice(b"row ")?;
    write_key(key, text)?;
    text.extend_from_slice(b" differs")
}
