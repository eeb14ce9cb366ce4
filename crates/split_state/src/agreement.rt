ghost use Rattle.std.specs.Prelude.{◌≡◌, ◌↔◌, IsTrue};
ghost use Rattle.std.specs.FinMap as map;
ghost use Rattle.issuer_rows.specs.Agreement.{Agrees};

use issuer_rows::{Book, Places, RowKey, RowVal};
use issuer_view::ReadSet;

// Whether each row that was read is so in the book. Where they stand is noted.
pub(crate) fn agrees(book: &Book, reads: &ReadSet, places: &mut Places) -> bool
    ensures { IsTrue result ↔ Agrees reads.now (map.get book.now) }
{
    for place in 0..reads.len() {
        let (key, read) = reads.row(place);
        if !is_as_read(book, key, read, places) {
            return false;
        }
    }
    true
}

// Whether the row is so in the book.
fn is_as_read(book: &Book, key: &RowKey, read: &Option<RowVal>, places: &mut Places) -> bool
    ensures { IsTrue result ↔ (map.get book.now key.now ≡ read.now) }
{
    match (book.find(key, places), read) {
        (Some(row), Some(val)) => row.is_same(val),
        (None, None) => true,
        _ => false,
    }
}
