ghost use Rattle.std.specs.Prelude.{◌≡◌, ◌&&◌, not, None, IfOk, cond};
ghost use Rattle.std.specs.FinMap as map;
ghost use Rattle.issuer_rows.specs.declared.row_key.RowKey.{RowKey as Key};
ghost use Rattle.parts_books.specs.PartBooks.{is_among, is_of_account, rest_rows};

use crate::keys::needed_keys;
use issuer_rows::{Book, Frame, RowKey};
use std::alloc::{AllocError, Global};

/// The rest of the book: the rows that none of these messages may need, and all accounts. It fails only where memory runs out.
pub fn rest_book(alloc: Global, book: &Book, frames: &[Frame]) -> Result<Book, AllocError>
    ensures { IfOk result (λ rest. rest ≡ rest_rows book.now frames.now) }
{
    let mut rest = book.copy()?;
    for frame in frames {
        let keys = needed_keys(alloc, book, frame)?;
        take_rows(&keys, &mut rest);
    }
    Ok(rest)
}

// Takes the rows under these keys out, but for accounts.
fn take_rows(keys: &[RowKey], rest: &mut Book)
    ensures { (q : Key) → map.get rest.new q ≡ cond (not (is_of_account q) && is_among q keys.now) None (map.get rest.old q) }
{
    for key in keys {
        if !is_of_account(key) {
            let _ = rest.remove(key);
        }
    }
}

// Whether the key is an account's.
fn is_of_account(key: &RowKey) -> bool
    ensures { result ≡ is_of_account key.now }
{
    matches!(key, RowKey::Account(_))
}
