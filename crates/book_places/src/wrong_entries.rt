ghost use Rattle.std.specs.Prelude.{◌≡◌, Ok, IfOk, IfErr, IfSome, IfNone};
ghost use Rattle.serde_json.specs.View.{view, items_view};
ghost use Rattle.book_laws.specs.Lists.{add_entries};
ghost use Rattle.book_places.specs.Places.{IsFirstWrong};

use book_json::add_entry;
use book_laws::{BookVersion, RowList, TextFault};
use issuer_rows::Book;
use serde_json::Value;
use std::alloc::AllocError;

/// Writes the rows of the entries of a list to the book, up to the first entry that is wrong: it isn't read, or an earlier one has its
/// row. Returns its number, from 0, and its fault.
pub(crate) fn first_wrong(
    version: BookVersion,
    list: RowList,
    entries: &[Value],
    book: &mut Book,
) -> Result<Option<(usize, TextFault)>, AllocError>
    ensures wrong { IfOk result (λ found. IfSome found (λ wrong. IsFirstWrong version list entries.now book.old wrong.0 wrong.1)) }
    ensures right { IfOk result (λ found. IfNone found (add_entries version list (items_view entries.now) book.old ≡ Ok book.new)) }
{
    for (index, entry) in entries.iter().enumerate() {
        match add_entry(version, list, entry, book) {
            Ok(()) => {}
            Err(fault) => match fault {
                TextFault::OutOfMemory => return Err(AllocError),
                _ => return Ok(Some((index, fault))),
            },
        }
    }
    Ok(None)
}
