ghost use Rattle.std.specs.Prelude.{◌≡◌, ◌&&◌, length, zip, IfOk, OnOk, Some, is_some, cond};
ghost use Rattle.std.specs.FinMap as map;
ghost use Rattle.issuer_laws.specs.Parts.{of_part};
ghost use Rattle.issuer_words.specs.Words.{IsWithin, account_in, key_eq};
ghost use Rattle.issuer_rows.specs.declared.row_key.RowKey.{RowKey as Key};
ghost use Rattle.parts_books.specs.PartBooks.{each_part, has_account_at, is_among, is_for, part_rows, rows_for};

use crate::keys::{lent_keys, needed_keys};
use issuer_rows::{Book, Frame, RowKey, RowVal};
use std::alloc::{AllocError, Global};

/// The books of so many parts: each has the rows that its messages may need, and the accounts of these. The message at each place is of the
/// part at its place. It fails only where memory runs out.
#[tactic(auto, using(crate::proofs::Going::each_last))]
pub fn part_books(
    alloc: Global,
    book: &Book,
    frames: &[Frame],
    parts: &[u32],
    count: u32,
) -> Result<Vec<Book>, AllocError>
    requires { length parts.now ≡ length frames.now }
    ensures { IfOk result (λ books. books.items ≡ each_part (part_rows book.now (zip parts.now frames.now)) count) }
{
    let mut books = Vec::with_capacity(alloc, count as usize)?;
    for part in 0..count {
        books.push(part_book(alloc, book, frames, parts, part)?)?;
    }
    Ok(books)
}

/// The book of one part. It fails only where memory runs out.
pub fn part_book(
    alloc: Global,
    book: &Book,
    frames: &[Frame],
    parts: &[u32],
    part: u32,
) -> Result<Book, AllocError>
    requires { length parts.now ≡ length frames.now }
    ensures { IfOk result (λ own. own ≡ part_rows book.now (zip parts.now frames.now) part) }
{
    let own = messages_of(alloc, frames, parts, part)?;
    book_for(alloc, book, &own)
}

/// The messages of a part, in their order. It fails only where memory runs out.
pub(crate) fn messages_of(
    alloc: Global,
    frames: &[Frame],
    parts: &[u32],
    part: u32,
) -> Result<Vec<Frame>, AllocError>
    requires { length parts.now ≡ length frames.now }
    ensures { IfOk result (λ own. own.items ≡ of_part part (zip parts.now frames.now)) }
{
    let mut own = Vec::new(alloc);
    for index in 0..frames.len() {
        if parts[index] == part {
            own.push(frames[index])?;
        }
    }
    Ok(own)
}

/// The rows of the book that these messages may need, and the accounts of these. Its cost is that of the messages, whatever the book has. It
/// fails only where memory runs out.
pub fn book_for(alloc: Global, book: &Book, frames: &[Frame]) -> Result<Book, AllocError>
    ensures { IfOk result (λ own. own ≡ rows_for book.now frames.now) }
{
    let mut own = Book::new(alloc);
    for frame in frames {
        put_for(alloc, book, frame, &mut own)?;
    }
    Ok(own)
}

// Puts the rows of the book for a message into another.
fn put_for(alloc: Global, book: &Book, frame: &Frame, other: &mut Book) -> Result<(), AllocError>
    requires within { IsWithin other.old book.now }
    ensures { OnOk result ((q : Key) → map.get other.new q ≡ cond (is_for book.now q frame.now) (map.get book.now q) (map.get other.old q)) }
{
    let keys = needed_keys(alloc, book, frame)?;
    put_rows(book, &keys, other)?;
    let lent = lent_keys(alloc, book, &keys)?;
    put_accounts(book, &lent, other)?;
    Ok(())
}

// Puts the rows of the book under these keys into another.
fn put_rows(book: &Book, keys: &[RowKey], other: &mut Book) -> Result<(), AllocError>
    requires within { IsWithin other.old book.now }
    ensures { OnOk result ((q : Key) → map.get other.new q ≡ cond (is_among q keys.now) (map.get book.now q) (map.get other.old q)) }
{
    for key in keys {
        if let Some(val) = book.row(key) {
            other.put_copy(key, val)?;
        }
    }
    Ok(())
}

// Puts the accounts of the book under these keys into another.
fn put_accounts(book: &Book, keys: &[RowKey], other: &mut Book) -> Result<(), AllocError>
    ensures { OnOk result ((q : Key) → map.get other.new q ≡ cond (has_account_at book.now q && is_among q keys.now) (map.get book.now q) (map.get other.old q)) }
{
    for key in keys {
        put_account(book, key, other)?;
    }
    Ok(())
}

// Puts the account of the book under this key into another, if one stands there.
fn put_account(book: &Book, key: &RowKey, other: &mut Book) -> Result<(), AllocError>
    ensures { OnOk result ((q : Key) → map.get other.new q ≡ cond (has_account_at book.now q && key_eq q key.now) (map.get book.now q) (map.get other.old q)) }
{
    let Some(val) = book.row(key) else {
        return Ok(());
    };
    if !is_account(val) {
        return Ok(());
    }
    other.put_copy(key, val)?;
    Ok(())
}

// Whether the row is an account's.
fn is_account(val: &RowVal) -> bool
    ensures { result ≡ is_some (account_in (Some val.now)) }
{
    matches!(val, RowVal::Account(_))
}
