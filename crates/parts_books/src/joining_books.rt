ghost use Rattle.std.specs.Prelude.{◌≡◌, ◌&&◌, not, cond, OnOk, IfOk, Some};
ghost use Rattle.std.specs.FinMap as map;
ghost use Rattle.engine_parts.specs.TwoBooks.{joined};
ghost use Rattle.issuer_words.specs.Words.{account_in, key_eq};
ghost use Rattle.issuer_rows.specs.declared.row_key.RowKey.{RowKey as Key};
ghost use Rattle.parts_books.specs.PartBooks.{is_as_in_rest, is_same_account_row, joined_books, own_rows};

use book_changes::put_row;
use issuer_rows::{Book, RowKey, RowVal};
use std::alloc::AllocError;

/// The rest of a book, and over it the rows of the parts' books behind them: all but accounts that stand there as in the rest, since
/// another part may have changed such an account. It fails only where memory runs out.
pub fn join_books(rest: &Book, books: &[Book]) -> Result<Book, AllocError>
    ensures { IfOk result (λ whole. whole ≡ joined_books rest.now books.now) }
{
    let mut whole = rest.copy()?;
    for book in books {
        put_own(rest, book, &mut whole)?;
    }
    Ok(whole)
}

// Writes the rows of a part's book over those of the whole one, but for accounts that stand there as in the rest.
fn put_own(rest: &Book, book: &Book, whole: &mut Book) -> Result<(), AllocError>
    ensures { OnOk result (whole.new ≡ joined whole.old (own_rows rest.now book.now)) }
{
    for (key, val) in book.rows() {
        put_own_row(rest, book, key, val, whole)?;
    }
    Ok(())
}

// Writes a row of a part's book, unless it is an account that stands so in the rest.
fn put_own_row(
    rest: &Book,
    book: &Book,
    key: &RowKey,
    val: &RowVal,
    whole: &mut Book,
) -> Result<(), AllocError>
    requires { map.get book.now key.now ≡ Some val.now }
    ensures { OnOk result ((q : Key) → map.get whole.new q ≡ cond (not (is_as_in_rest rest.now book.now key.now) && key_eq q key.now) (map.get book.now q) (map.get whole.old q)) }
{
    if stands_so(rest, key, val) {
        return Ok(());
    }
    put_row(book, key, val, whole)?;
    Ok(())
}

// Whether the row is an account that stands so in the rest.
fn stands_so(rest: &Book, key: &RowKey, val: &RowVal) -> bool
    ensures { result ≡ is_same_account_row (account_in (map.get rest.now key.now)) (account_in (Some val.now)) }
{
    match (rest.row(key), val) {
        (Some(RowVal::Account(theirs)), RowVal::Account(mine)) => theirs == mine,
        _ => false,
    }
}
