//! The first row that is wrong in a book that isn't sound.

ghost use Rattle.std.specs.Prelude.{◌≡◌, IfSome, IsTrue};
ghost use Rattle.serde_json.specs.View.{view};
ghost use Rattle.book_laws.specs.Cards.{row_of_old_card};
ghost use Rattle.issuer_words.specs.Words.{RowKey, RowVal};
ghost use Rattle.book_places.specs.Places.{IsRowOf, IsRowPlace, IsWrongRow};

use crate::wrong_row::WrongRow;
use book_entries::{entry_of, old_card_of};
use book_json::has_old_cards;
use book_laws::{
    BookFault, BookVersion, OldCard, RowList, has_account, has_accounts, has_paying_account,
    has_right_number,
};
use iso_shown::MaskedPan;
use issuer_rows::{Book, RowKey, RowVal};
use serde_json::Value;

// The row that a card of versions 1 and 2 is.
fn old_row(card: &OldCard) -> (RowKey, RowVal)
    ensures { result ≡ (RowKey.Card card.now.pan, RowVal.Card (row_of_old_card card.now)) }
{
    (RowKey::Card(card.pan), RowVal::Card(card.card_row()))
}

/// The row that the entry is, where it is read by itself.
pub(crate) fn row_of(version: BookVersion, list: RowList, entry: &Value) -> Option<(RowKey, RowVal)>
    ensures { IfSome result (IsRowOf version list (view entry.now)) }
{
    if has_old_cards(version, list) {
        return match old_card_of(entry) {
            Ok(card) => Some(old_row(&card)),
            Err(_) => None,
        };
    }
    match entry_of(version, list, entry) {
        Ok(row) => Some(row),
        Err(_) => None,
    }
}

// Whether the row has this fault in the book.
fn is_wrong(book: &Book, fault: BookFault, key: &RowKey, val: &RowVal) -> bool
    ensures { IsTrue result → IsWrongRow book.now fault key.now val.now }
{
    match fault {
        BookFault::CardNumber => !has_right_number(key),
        BookFault::OriginalWithoutAccount => !has_paying_account(book, val),
        BookFault::CardWithoutAccount => !has_accounts(book, val),
        BookFault::OutOfRange => false,
    }
}

/// The number, from 0, of the first entry of a list whose row has this fault in the book, and the row.
pub(crate) fn first_wrong_row(
    version: BookVersion,
    list: RowList,
    entries: &[Value],
    book: &Book,
    fault: BookFault,
) -> Option<(usize, RowKey, RowVal)>
    ensures { IfSome result (λ found. IsRowPlace version list entries.now book.now fault found.0) }
{
    for (index, entry) in entries.iter().enumerate() {
        if let Some((key, val)) = row_of(version, list, entry)
            && is_wrong(book, fault, &key, &val)
        {
            return Some((index, key, val));
        }
    }
    None
}

// What is wrong with the accounts of a card.
fn wrong_accounts(book: &Book, val: &RowVal) -> WrongRow {
    let RowVal::Card(row) = val else {
        return WrongRow::NoAccount("account");
    };
    if !has_account(book, &row.accounts.first()) {
        return WrongRow::NoAccount("account");
    }
    match &row.accounts.second() {
        Some(second) if !has_account(book, second) => WrongRow::NoAccount("second"),
        _ => WrongRow::SameAccounts,
    }
}

/// What is wrong with a row that has this fault in the book.
pub(crate) fn wrong_row(book: &Book, fault: BookFault, key: &RowKey, val: &RowVal) -> WrongRow {
    match (fault, key) {
        (BookFault::CardNumber, RowKey::Card(pan)) => WrongRow::CardNumber(MaskedPan::new(*pan)),
        (BookFault::CardWithoutAccount, _) => wrong_accounts(book, val),
        _ => WrongRow::NoAccount("account"),
    }
}
