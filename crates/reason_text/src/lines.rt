ghost use Rattle.std.specs.Prelude.{◌≡◌, ◌++◌, IfOk, OnOk};
ghost use Rattle.reason_text.specs.Lines.{head_lines, lines_of, read_line, read_lines, reply_line, written_line, written_lines};

use crate::found_words::FoundWords;
use crate::frame_words::FrameWords;
use crate::key_words::KeyWords;
use crate::reply_words::ReplyWords;
use crate::row_words::RowWords;
use crate::rule_words::RuleWords;
use issuer_reasons::Explanation;
use issuer_rows::{RowKey, RowVal};
use issuer_view::{ReadSet, WriteSet};
use std::alloc::{AllocError, Global};

/// Why the body at this place of a batch is decided so, as lines: the message, its rule, the rows that were read and those that are
/// written, each in their order, and the reply. It fails only where memory runs out.
pub fn lines_of(
    alloc: Global,
    index: usize,
    explanation: &Explanation,
) -> Result<Vec<u8>, AllocError>
    ensures { IfOk result (λ text. text.items ≡ lines_of index explanation.now) }
{
    let mut text = Vec::new(alloc);
    add_head(alloc, &mut text, index, explanation)?;
    add_reads(alloc, &mut text, explanation.execution.reads())?;
    add_writes(alloc, &mut text, explanation.execution.writes())?;
    add_reply(alloc, &mut text, explanation)?;
    Ok(text)
}

// Appends the message and its rule.
fn add_head(
    alloc: Global,
    text: &mut Vec<u8>,
    index: usize,
    explanation: &Explanation,
) -> Result<(), AllocError>
    ensures { OnOk result (text.new.items ≡ text.old.items ++ head_lines index explanation.now) }
{
    let frame = FrameWords(explanation.execution.frame());
    let rule = RuleWords(explanation.rule);
    let lines = format!(in alloc; "message  {index}: {frame}\nrule     {rule}\n")?;
    text.extend_from_slice(lines.as_bytes())
}

// Appends the rows that were read.
fn add_reads(alloc: Global, text: &mut Vec<u8>, reads: &ReadSet) -> Result<(), AllocError>
    ensures { OnOk result (text.new.items ≡ text.old.items ++ read_lines reads.now) }
{
    for index in 0..reads.len() {
        let (key, row) = reads.row(index);
        add_read(alloc, text, key, row)?;
    }
    Ok(())
}

// Appends a row that was read.
fn add_read(
    alloc: Global,
    text: &mut Vec<u8>,
    key: &RowKey,
    row: &Option<RowVal>,
) -> Result<(), AllocError>
    ensures { OnOk result (text.new.items ≡ text.old.items ++ read_line (key.now, row.now)) }
{
    let (key, row) = (KeyWords(*key), FoundWords(row));
    let line = format!(in alloc; "read     {key}: {row}\n")?;
    text.extend_from_slice(line.as_bytes())
}

// Appends the rows that are written.
fn add_writes(alloc: Global, text: &mut Vec<u8>, writes: &WriteSet) -> Result<(), AllocError>
    ensures { OnOk result (text.new.items ≡ text.old.items ++ written_lines writes.now) }
{
    for index in 0..writes.len() {
        let (key, row) = writes.row(index);
        add_written(alloc, text, key, row)?;
    }
    Ok(())
}

// Appends a row that is written.
fn add_written(
    alloc: Global,
    text: &mut Vec<u8>,
    key: &RowKey,
    row: &RowVal,
) -> Result<(), AllocError>
    ensures { OnOk result (text.new.items ≡ text.old.items ++ written_line (key.now, row.now)) }
{
    let (key, row) = (KeyWords(*key), RowWords(row));
    let line = format!(in alloc; "wrote    {key}: {row}\n")?;
    text.extend_from_slice(line.as_bytes())
}

// Appends the reply.
fn add_reply(alloc: Global, text: &mut Vec<u8>, explanation: &Explanation) -> Result<(), AllocError>
    ensures { OnOk result (text.new.items ≡ text.old.items ++ reply_line explanation.now) }
{
    let reply = ReplyWords(explanation.execution.reply());
    let line = format!(in alloc; "reply    {reply}\n")?;
    text.extend_from_slice(line.as_bytes())
}
