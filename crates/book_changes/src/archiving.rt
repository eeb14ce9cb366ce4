ghost use Rattle.std.specs.Prelude.{◌≡◌, ◌||◌, false, Some, IfOk, IfSome, IfNone, OnOk, cond};
ghost use Rattle.std.specs.FinMap as map;
ghost use Rattle.issuer_words.specs.Words.{IsWithin, key_eq};
ghost use Rattle.issuer_rows.specs.declared.row_key.RowKey.{RowKey as Key};
ghost use Rattle.book_changes.specs.Archive.{has_paid, is_before, is_past, new_rows, old_rows};

use crate::archived::Archived;
use iso8583::Day;
use issuer_rows::{Book, Payer, RowKey, RowVal};
use std::alloc::{AllocError, Global};

/// The two parts of a book by a date: the book without its rows of earlier days, and these with the accounts that paid for one of them.
/// The book stays as it is. It fails only where memory runs out.
pub fn archive_book(alloc: Global, book: &Book, date: &Day) -> Result<Archived, AllocError>
    ensures new_book { IfOk result (λ archived. archived.new_book ≡ new_rows date.now book.now) }
    ensures old { IfOk result (λ archived. archived.old ≡ old_rows date.now book.now) }
{
    let mut new_book = Book::new(alloc);
    let mut old = Book::new(alloc);
    for (key, val) in book.rows() {
        if is_past(date, key, val) {
            put_past(book, key, val, &mut old)?;
        } else {
            put_row(book, key, val, &mut new_book)?;
        }
    }
    Ok(Archived { new_book, old })
}

/// Whether the row is of a day before the date: of a card's day, or of a request or an advice that was decided. The mark of a reversal
/// that came ahead of its original is of no day.
pub fn is_past(date: &Day, key: &RowKey, val: &RowVal) -> bool
    ensures { result ≡ is_past date.now key.now val.now }
{
    match (key, val) {
        (RowKey::Velocity(_, day), RowVal::Velocity(_)) => is_before(date, day),
        (RowKey::Original(identity), RowVal::Kept(_)) => is_before(date, &identity.stamp.day()),
        _ => false,
    }
}

// Whether the day is earlier than the date.
fn is_before(date: &Day, day: &Day) -> bool
    ensures { result ≡ is_before date.now day.now }
{
    day.cmp(date).is_lt()
}

// Puts a row of the book, and the account that paid for what it keeps, among the rows of the past.
fn put_past(book: &Book, key: &RowKey, val: &RowVal, old: &mut Book) -> Result<(), AllocError>
    requires there { map.get book.now key.now ≡ Some val.now }
    requires within { IsWithin old.old book.now }
    ensures { OnOk result ((q : Key) → map.get old.new q ≡ cond (key_eq q key.now || has_paid q val.now) (map.get book.now q) (map.get old.old q)) }
{
    put_row(book, key, val, old)?;
    if let Some(account) = payer_of(val) {
        if let Some(row) = book.row(&account) {
            old.put_copy(&account, row)?;
        }
    }
    Ok(())
}

// The account that paid for what the row keeps, if one did.
fn payer_of(val: &RowVal) -> Option<RowKey>
    ensures some { IfSome result (λ account. (q : Key) → has_paid q val.now ≡ key_eq q account) }
    ensures none { IfNone result ((q : Key) → has_paid q val.now ≡ false) }
{
    let RowVal::Kept(kept) = val else {
        return None;
    };
    let Some(payment) = kept.outcome().payment() else {
        return None;
    };
    match &payment.payer {
        Payer::Account(id) => Some(RowKey::Account(*id)),
        Payer::Budget => None,
    }
}

/// Puts a row of the book into another. Each is of its key's kind, so that none is looked up. It fails only where memory runs out.
pub fn put_row(book: &Book, key: &RowKey, val: &RowVal, other: &mut Book) -> Result<(), AllocError>
    requires { map.get book.now key.now ≡ Some val.now }
    ensures { OnOk result (other.new ≡ map.insert other.old key.now val.now) }
{
    if val.suits(key) {
        return other.put_copy(key, val);
    }
    match book.row(key) {
        Some(row) => other.put_copy(key, row),
        None => unreachable!(),
    }
}
