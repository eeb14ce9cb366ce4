//! Parts of a book's text, each written into text that is empty.

ghost use Rattle.std.specs.Prelude.{◌≡◌, ◌∷◌, [], codes, decimal, IfOk};
ghost use Rattle.json.specs.Print.{print, print_from};
ghost use Rattle.json.specs.Token.{key as key_token, number as number_token, begin_array as begin_array_token, end_array as end_array_token, end_object as end_object_token};
ghost use Rattle.book_laws.specs.Parts.{list_key};
ghost use Rattle.book_laws.specs.Text.{ends_after};
ghost use Rattle.book_text.specs.Left.{entries_tokens};
ghost use Rattle.book_text.specs.Pieces.{first_tokens, next_list, between, last_tokens};

use crate::json_writer::JsonWriter;
use crate::listed_rows::ListedRows;
use crate::writing::{end_book, open_list, write_rows};
use book_laws::RowList;
use std::alloc::AllocError;
use std::mem;

/// The memory of a text, emptied, with none left in its place.
pub fn emptied(text: &mut Vec<u8>) -> Vec<u8>
    ensures { result.items ≡ [] }
{
    let alloc = *text.allocator();
    let mut emptied = mem::replace(text, Vec::new(alloc));
    emptied.clear();
    emptied
}

/// The entries of those of the rows that stand in the list, and whether an entry of the list is written then, where it is known whether
/// one was before. It fails only where memory runs out.
pub fn rows_piece(
    text: Vec<u8>,
    later: bool,
    list: RowList,
    rows: &ListedRows<'_>,
) -> Result<(Vec<u8>, bool), AllocError>
    requires { text.items ≡ [] }
    ensures text { IfOk result (λ piece. piece.0.items ≡ print_from later (entries_tokens list rows.now)) }
    ensures later { IfOk result (λ piece. piece.1 ≡ ends_after later (entries_tokens list rows.now)) }
{
    let mut out = JsonWriter::new(text, later);
    write_rows(&mut out, list, rows)?;
    Ok(out.into_parts())
}

/// What stands before the first entry of the first list. It fails only where memory runs out.
pub fn first_piece(text: Vec<u8>) -> Result<Vec<u8>, AllocError>
    requires { text.items ≡ [] }
    ensures { IfOk result (λ piece. piece.items ≡ print first_tokens) }
{
    let mut out = JsonWriter::new(text, false);
    out.begin_object()?;
    open_list(&mut out, RowList::Accounts)?;
    Ok(out.into_parts().0)
}

/// What stands between the last entry of a list and the first of the next one. It fails only where memory runs out.
pub fn piece_between(text: Vec<u8>, next: RowList) -> Result<Vec<u8>, AllocError>
    requires { text.items ≡ [] }
    ensures { IfOk result (λ piece. piece.items ≡ print (between next)) }
{
    let mut out = JsonWriter::new(text, false);
    out.end_array()?;
    open_list(&mut out, next)?;
    Ok(out.into_parts().0)
}

/// What stands behind the last entry of the last list. It fails only where memory runs out.
pub fn last_piece(text: Vec<u8>) -> Result<Vec<u8>, AllocError>
    requires { text.items ≡ [] }
    ensures { IfOk result (λ piece. piece.items ≡ print last_tokens) }
{
    let mut out = JsonWriter::new(text, false);
    out.end_array()?;
    end_book(&mut out)?;
    Ok(out.into_parts().0)
}

/// The lists of a book's text, in the order in which they stand there.
pub const LISTS: [RowList; 6] = [
    RowList::Accounts,
    RowList::Ahead,
    RowList::Budgets,
    RowList::Cards,
    RowList::Days,
    RowList::Originals,
];

/// The list that stands behind this one, if there is one.
pub fn list_behind(list: RowList) -> Option<RowList>
    ensures { result ≡ next_list list }
{
    match list {
        RowList::Accounts => Some(RowList::Ahead),
        RowList::Ahead => Some(RowList::Budgets),
        RowList::Budgets => Some(RowList::Cards),
        RowList::Cards => Some(RowList::Days),
        RowList::Days => Some(RowList::Originals),
        RowList::Originals => None,
    }
}
