//! A book from its text.

ghost use Rattle.std.specs.Prelude.{◌≡◌, Ok};
ghost use Rattle.serde_json.specs.View.{view};
ghost use Rattle.book_laws.specs.Reading.{version_of_keys, version_of, add_lists, all_lists, book_of, reading, IsAnswer};
ghost use Rattle.book_laws.specs.Steps.{GivesOrMemory};

use crate::lists::add_list;
use crate::written::read_written;
use book_entries::{has_keys, number_at};
use book_laws::{BookVersion, JsonFault, Part, ROW_LISTS, RowList, TextFault, check_book_by};
use issuer_rows::Book;
use serde_json::Value;
use std::alloc::{AllocError, Global};
use std::sync::Wait;
use std::thread::Threads;

const KEYS_OF_ONE: [&str; 5] = ["budgets", "cards", "days", "originals", "version"];

const KEYS_OF_TWO: [&str; 6] = ["ahead", "budgets", "cards", "days", "originals", "version"];

const KEYS_OF_THREE: [&str; 7] = [
    "accounts",
    "ahead",
    "budgets",
    "cards",
    "days",
    "originals",
    "version",
];

/// The version whose keys the top object has.
fn version_of_keys(top: &Value) -> Result<BookVersion, TextFault>
    ensures { result ≡ version_of_keys (view top.now) }
{
    if has_keys(top, &KEYS_OF_THREE) {
        Ok(BookVersion::Three)
    } else if has_keys(top, &KEYS_OF_TWO) {
        Ok(BookVersion::Two)
    } else if has_keys(top, &KEYS_OF_ONE) {
        Ok(BookVersion::One)
    } else {
        Err(TextFault::Shape(Part::Top))
    }
}

/// The version: the one that is stated is that of the keys.
pub fn version_of(top: &Value) -> Result<BookVersion, TextFault>
    ensures { result ≡ version_of (view top.now) }
{
    let version = version_of_keys(top)?;
    if number_at(Part::Version, top, "version")? == version.number() {
        Ok(version)
    } else {
        Err(TextFault::Range)
    }
}

/// Writes the rows of lists of the top object to the book.
fn add_lists(
    version: BookVersion,
    lists: &[RowList],
    top: &Value,
    book: &mut Book,
) -> Result<(), TextFault>
    ensures { GivesOrMemory (λ _. book.new) result (add_lists version lists.now (view top.now) book.old) }
{
    for list in lists {
        add_list(version, *list, top, book)?;
    }
    Ok(())
}

/// The book that a JSON value is.
#[tactic(auto, unfolding(book_laws::specs::Reading::book_of))]
fn book_of(alloc: Global, top: &Value) -> Result<Book, TextFault>
    ensures { GivesOrMemory (λ book. book) result (book_of (view top.now)) }
{
    let version = version_of(top)?;
    let mut book = Book::new(alloc);
    add_lists(version, &ROW_LISTS, top, &mut book)?;
    Ok(book)
}

/// The book that a text is, before it is asked whether it is sound.
fn book_of_text(alloc: Global, bytes: &[u8]) -> Result<Book, TextFault>
    ensures { GivesOrMemory (λ book. book) result (reading bytes.now) }
{
    match Value::from_slice(alloc, bytes) {
        Ok(top) => book_of(alloc, &top),
        Err(e) => {
            if e.is_memory() {
                Err(TextFault::OutOfMemory)
            } else {
                Err(TextFault::Syntax)
            }
        }
    }
}

// The book, if nothing is wrong with it.
fn sound_or_fault<R: Threads + Wait + Sync>(rt: &R, book: Book) -> Result<Book, JsonFault>
    ensures { IsAnswer (Ok book) result }
{
    match check_book_by(rt, &book) {
        Ok(()) => Ok(book),
        Err(fault) => Err(JsonFault::Invalid(fault)),
    }
}

// The sound book that a text is, in whatever form it is written.
fn read_any<R: Threads + Wait + Sync>(
    rt: &R,
    alloc: Global,
    bytes: &[u8],
) -> Result<Book, JsonFault>
    ensures { IsAnswer (reading bytes.now) result }
{
    let book = book_of_text(alloc, bytes)?;
    sound_or_fault(rt, book)
}

/// The book that a text is: JSON of version 1, 2 or 3, with a sound book in it. A book of version 1 or 2 is migrated first:
/// each card gets an account that is named by its own digits and has its money, and what the card paid, that account paid.
///
/// # Errors
///
/// The first fault of this order:
/// - The text is no JSON (`Syntax`).
/// - The top object has the keys of no version (`Shape`).
/// - The version isn't a number (`Shape`), or not that of the keys (`Range`).
/// - An entry is wrong; the lists are read in the order of their parts. In an entry come first its keys (`Shape`), then its fields in the
///   order of their keys (`Shape` for another kind of value, `Range` for one outside its range), then whether an original can be (`Range`),
///   then whether an earlier entry has its row (`Shape`).
/// - `check_book` finds a fault (`Invalid`).
///
/// Or memory ran out (`OutOfMemory`).
pub fn read_book<R: Threads + Wait + Sync>(
    rt: &R,
    alloc: Global,
    bytes: &[u8],
) -> Result<Book, JsonFault>
    ensures { IsAnswer (reading bytes.now) result }
{
    match read_written(rt, alloc, bytes) {
        Ok(Some(book)) => sound_or_fault(rt, book),
        Ok(None) => read_any(rt, alloc, bytes),
        Err(AllocError) => Err(JsonFault::OutOfMemory),
    }
}
