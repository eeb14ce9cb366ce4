ghost use Rattle.std.specs.Prelude.{◌≡◌, OnOk, Some};
ghost use Rattle.std.specs.FinMap as map;
ghost use Rattle.engine_parts.specs.TwoBooks.{joined};
ghost use Rattle.issuer_fold.specs.Formers.{LeadsBack};
ghost use Rattle.issuer_words.specs.Words.{IsOfKind, Rows};

use issuer_fold::Formers;
use issuer_rows::{Book, Places, RowKey, RowVal};
use std::alloc::AllocError;

/// Writes the rows of the other book over those of this one. It fails only where memory runs out, and some are written then.
pub fn put_book(book: &mut Book, written: &Book) -> Result<(), AllocError>
    ensures { OnOk result (book.new ≡ joined book.old written.now) }
{
    for (key, val) in written.rows() {
        book.put_copy(key, row_of(written, key, val))?;
    }
    Ok(())
}

/// The same, where what the rows were is noted. What was noted before leads back all the same, after an error too.
pub fn put_book_noted(
    book: &mut Book,
    written: &Book,
    formers: &mut Formers,
) -> Result<(), AllocError>
    ensures ok { OnOk result (book.new ≡ joined book.old written.now) }
    ensures back { (earlier : Rows) → LeadsBack book.old formers.old earlier → LeadsBack book.new formers.new earlier }
{
    for (key, val) in written.rows() {
        formers.put(book, key, row_of(written, key, val), &mut Places::new())?;
    }
    Ok(())
}

// A row of the book where it stands. Each is of its key's kind, so that none is looked up.
fn row_of<'a>(written: &'a Book, key: &RowKey, val: &'a RowVal) -> &'a RowVal
    requires { map.get written.now key.now ≡ Some val.now }
    ensures same { result.now ≡ val.now }
    ensures kind { IsOfKind key.now result.now }
{
    if val.suits(key) {
        return val;
    }
    match written.row(key) {
        Some(row) => row,
        None => unreachable!(),
    }
}
