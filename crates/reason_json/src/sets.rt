//! The rows that a decision reads and writes.

ghost use Rattle.std.specs.Prelude.{◌∷◌, ◌++◌, [], OnOk, map};
ghost use Rattle.json.specs.Token.{end_array as end_array_token};
ghost use Rattle.std.specs.List.{flat_map};
ghost use Rattle.serde_json.specs.Data.{array};
ghost use Rattle.book_laws.specs.Text.{Adds, tokens_of};
ghost use Rattle.reason_json.specs.Lines.{items, read_data, written_data};
ghost use Rattle.reason_json.specs.Rows.{found_data};
ghost use Rattle.reason_json.specs.Tokens.{read_tokens, written_tokens};

use crate::keys::put_absent;
use crate::rows::put_row;
use book_text::JsonWriter;
use iso_shown::CardNumbers;
use issuer_rows::{RowKey, RowVal};
use issuer_view::{ReadSet, WriteSet};
use std::alloc::{AllocError, Global};

// Writes what was found at a key.
fn put_found(
    out: &mut JsonWriter,
    alloc: Global,
    cards: CardNumbers,
    key: &RowKey,
    found: &Option<RowVal>,
) -> Result<(), AllocError>
    ensures { OnOk result (Adds out.old out.new (tokens_of (found_data cards key.now found.now))) }
{
    match found {
        Some(row) => put_row(out, alloc, cards, key, row),
        None => put_absent(out, alloc, cards, key),
    }
}

// Writes the rows that were read, one behind another.
fn put_each_read(
    out: &mut JsonWriter,
    alloc: Global,
    cards: CardNumbers,
    reads: &ReadSet,
) -> Result<(), AllocError>
    ensures { OnOk result (Adds out.old out.new (flat_map (read_tokens cards) reads.now)) }
{
    for index in 0..reads.len() {
        let (key, found) = reads.row(index);
        put_found(out, alloc, cards, key, found)?;
    }
    Ok(())
}

// Writes the rows that are written, one behind another.
fn put_each_written(
    out: &mut JsonWriter,
    alloc: Global,
    cards: CardNumbers,
    writes: &WriteSet,
) -> Result<(), AllocError>
    ensures { OnOk result (Adds out.old out.new (flat_map (written_tokens cards) writes.now)) }
{
    for index in 0..writes.len() {
        let (key, row) = writes.row(index);
        put_row(out, alloc, cards, key, row)?;
    }
    Ok(())
}

/// Writes the rows that were read, as an array. It fails only where memory runs out.
pub(crate) fn put_reads(
    out: &mut JsonWriter,
    alloc: Global,
    cards: CardNumbers,
    reads: &ReadSet,
) -> Result<(), AllocError>
    ensures { OnOk result (Adds out.old out.new (tokens_of (array (items (map (read_data cards) reads.now))))) }
{
    out.begin_array()?;
    put_each_read(out, alloc, cards, reads)?;
    out.end_array()?;
    Ok(())
}

/// Writes the rows that are written, as an array. It fails only where memory runs out.
pub(crate) fn put_writes(
    out: &mut JsonWriter,
    alloc: Global,
    cards: CardNumbers,
    writes: &WriteSet,
) -> Result<(), AllocError>
    ensures { OnOk result (Adds out.old out.new (tokens_of (array (items (map (written_data cards) writes.now))))) }
{
    out.begin_array()?;
    put_each_written(out, alloc, cards, writes)?;
    out.end_array()?;
    Ok(())
}
