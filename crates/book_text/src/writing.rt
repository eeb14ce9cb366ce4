//! The text of a book.

ghost use Rattle.std.specs.Prelude.{◌≡◌, ◌∷◌, [], Ok, OnOk, IfOk, codes, decimal};
ghost use Rattle.json.specs.Token.{key as key_token, number as number_token, begin_array as begin_array_token, end_object as end_object_token};
ghost use Rattle.book_laws.specs.Parts.{list_key};
ghost use Rattle.book_laws.specs.Reading.{reading};
ghost use Rattle.book_laws.specs.Text.{Adds, tokens_of, list_data, top_data, book_text};
ghost use Rattle.book_text.specs.Left.{entries_tokens};

use crate::json_writer::JsonWriter;
use crate::listed_rows::ListedRows;
use crate::row_writers::write_entry;
use book_laws::RowList;
use issuer_rows::Book;
use std::alloc::{AllocError, Global};

/// Writes the entries of those of the rows that stand in the list. It fails only where memory runs out.
pub(crate) fn write_rows(
    out: &mut JsonWriter,
    list: RowList,
    rows: &ListedRows<'_>,
) -> Result<(), AllocError>
    ensures { OnOk result (Adds out.old out.new (entries_tokens list rows.now)) }
{
    let candidates = rows.of_kind(list);
    for row in candidates {
        if list.has(row.1) {
            write_entry(out, row.0, row.1)?;
        }
    }
    Ok(())
}

/// Begins a list: its key and its opening bracket. It fails only where memory runs out.
pub fn open_list(out: &mut JsonWriter, list: RowList) -> Result<(), AllocError>
    ensures { OnOk result (Adds out.old out.new (key_token (list_key list) ∷ begin_array_token ∷ [])) }
{
    out.key(list.key())?;
    out.begin_array()
}

/// Writes what stands behind all lists.
pub(crate) fn end_book(out: &mut JsonWriter) -> Result<(), AllocError>
    ensures { OnOk result (Adds out.old out.new (key_token (codes "version") ∷ number_token (decimal 3) ∷ end_object_token ∷ [])) }
{
    out.key("version")?;
    out.number(3)?;
    out.end_object()
}

// Writes the list of those of the rows that stand in it.
fn write_list(out: &mut JsonWriter, list: RowList, rows: &ListedRows<'_>) -> Result<(), AllocError>
    ensures { OnOk result (Adds out.old out.new (key_token (list_key list) ∷ tokens_of (list_data list rows.now))) }
{
    open_list(out, list)?;
    write_rows(out, list, rows)?;
    out.end_array()?;
    Ok(())
}

// Writes the top object of the book that has these rows.
fn write_top(out: &mut JsonWriter, rows: &ListedRows<'_>) -> Result<(), AllocError>
    ensures { OnOk result (Adds out.old out.new (tokens_of (top_data rows.now))) }
{
    out.begin_object()?;
    write_list(out, RowList::Accounts, rows)?;
    write_list(out, RowList::Ahead, rows)?;
    write_list(out, RowList::Budgets, rows)?;
    write_list(out, RowList::Cards, rows)?;
    write_list(out, RowList::Days, rows)?;
    write_list(out, RowList::Originals, rows)?;
    end_book(out)?;
    Ok(())
}

// About how many bytes the entry of an original takes, of which a book mostly consists.
const BYTES_OF_A_ROW: usize = 350;

// Room for the text of so many rows, so that the text isn't moved while it grows.
fn room_for(alloc: Global, rows: usize) -> Result<Vec<u8>, AllocError>
    ensures { IfOk result (λ text. text.items ≡ []) }
{
    let mut text = Vec::new(alloc);
    text.reserve(rows.saturating_mul(BYTES_OF_A_ROW))?;
    Ok(text)
}

/// The text of a book: JSON of version 3, without spaces, the keys of each object in byte order and the rows of each list in the order of
/// their keys. It is read again as the book. It fails only where memory runs out.
pub fn write_book(alloc: Global, book: &Book) -> Result<Vec<u8>, AllocError>
    ensures text { IfOk result (λ text. text.items ≡ book_text book.now) }
    ensures back { IfOk result (λ text. reading text.items ≡ Ok book.now) }
{
    let sorted = book.sorted_rows(alloc)?;
    let rows = ListedRows::new(&sorted);
    let mut out = JsonWriter::new(room_for(alloc, book.len())?, false);
    write_top(&mut out, &rows)?;
    Ok(out.into_parts().0)
}
