//! The first fault of a text that is no sound book.

ghost use Rattle.std.specs.Prelude.{◌≡◌, Ok, IfOk, IfSome, IfNone};
ghost use Rattle.serde_json.specs.View.{view};
ghost use Rattle.book_laws.specs.Lists.{add_list};
ghost use Rattle.book_laws.specs.Reading.{add_lists};
ghost use Rattle.book_places.specs.Places.{IsInList, IsInLists, IsInTop, IsRowIn, IsUnsound, IsWrongBook};

use crate::book_place::BookPlace;
use crate::field::Field;
use crate::field_kind::FieldKind;
use crate::fields::fields_of;
use crate::wrong_book::WrongBook;
use crate::wrong_entries::first_wrong;
use crate::wrong_entry::WrongEntry;
use crate::wrong_rows::{first_wrong_row, row_of, wrong_row};
use book_json::version_of;
use book_laws::{
    BookFault, BookVersion, JsonFault, Part, ROW_LISTS, RowList, TextFault, check_book,
};
use iso8583::Digits;
use issuer_rows::Book;
use serde_json::Value;
use std::alloc::{AllocError, Global};

// What is wrong with a field: its month, where it has one.
fn wrong_field(field: &Field, value: &Value) -> WrongEntry {
    let wrong = WrongEntry::Field(field.key, field.kind);
    let (FieldKind::Month, Some(text)) = (field.kind, value.as_str()) else {
        return wrong;
    };
    match Digits::<4>::new(text.as_bytes()) {
        Some(digits) => WrongEntry::Month(field.key, Digits::of_text(&digits.as_slice()[2..])),
        None => wrong,
    }
}

// What is wrong with an entry: its keys, else its first field that is wrong, else all of them together, or its row.
fn wrong_entry(version: BookVersion, list: RowList, entry: &Value) -> WrongEntry {
    if row_of(version, list, entry).is_some() {
        return WrongEntry::Twice;
    }
    let fields = fields_of(version, list);
    let has_keys = match entry.as_object() {
        Some(members) => members.len() == fields.len(),
        None => false,
    };
    if !has_keys || fields.iter().any(|field| entry.get(field.key).is_none()) {
        return WrongEntry::Keys;
    }
    for field in fields {
        match entry.get(field.key) {
            Some(value) if field.kind.is_right(value) => {}
            Some(value) => return wrong_field(field, value),
            None => return WrongEntry::Keys,
        }
    }
    WrongEntry::Together
}

// The first fault of a list of the version, whose rows are written to the book.
#[tactic(auto, unfolding(book_laws::specs::Lists::add_list))]
fn place_in_list(
    version: BookVersion,
    list: RowList,
    top: &Value,
    book: &mut Book,
) -> Result<Option<WrongBook>, AllocError>
    ensures wrong { IfOk result (λ found. IfSome found (IsInList version list (view top.now) book.old)) }
    ensures right { IfOk result (λ found. IfNone found (add_list version list (view top.now) book.old ≡ Ok book.new)) }
{
    if !version.has_list(list) {
        return Ok(None);
    }
    let Some(entries) = top.get(list.key()).and_then(Value::as_array) else {
        return Ok(Some(WrongBook {
            fault: JsonFault::Shape(list.part()),
            place: BookPlace::List(list),
        }));
    };
    let Some((index, fault)) = first_wrong(version, list, entries, book)? else {
        return Ok(None);
    };
    let wrong = match entries.get(index) {
        Some(entry) => wrong_entry(version, list, entry),
        None => WrongEntry::Keys,
    };
    Ok(Some(WrongBook {
        fault: JsonFault::from(fault),
        place: BookPlace::Entry(list, index, wrong),
    }))
}

// The first fault of these lists, whose rows are written to the book.
fn place_in_lists(
    version: BookVersion,
    lists: &[RowList],
    top: &Value,
    book: &mut Book,
) -> Result<Option<WrongBook>, AllocError>
    ensures wrong { IfOk result (λ found. IfSome found (IsInLists version lists.now (view top.now) book.old)) }
    ensures right { IfOk result (λ found. IfNone found (add_lists version lists.now (view top.now) book.old ≡ Ok book.new)) }
{
    for list in lists {
        match place_in_list(version, *list, top, book) {
            Ok(None) => {}
            Ok(Some(wrong)) => return Ok(Some(wrong)),
            Err(error) => return Err(error),
        }
    }
    Ok(None)
}

// The row of a book that has this fault.
fn place_of_row(
    version: BookVersion,
    top: &Value,
    book: &Book,
    fault: BookFault,
) -> Option<BookPlace>
    ensures { IfSome result (IsRowIn version (view top.now) book.now fault) }
{
    let list = match fault {
        BookFault::CardNumber | BookFault::CardWithoutAccount => RowList::Cards,
        BookFault::OriginalWithoutAccount => RowList::Originals,
        BookFault::OutOfRange => return Some(BookPlace::Backing),
    };
    let entries = top.get(list.key()).and_then(Value::as_array)?;
    let (index, key, val) = first_wrong_row(version, list, entries, book, fault)?;
    let wrong = wrong_row(book, fault, &key, &val);
    Some(BookPlace::Row(list, index, wrong))
}

// The first fault of a book that was read, where it isn't sound.
fn unsound_place(version: BookVersion, top: &Value, book: &Book) -> Option<WrongBook>
    ensures { IfSome result (λ wrong. IsUnsound version (view top.now) book.now wrong) }
{
    let fault = check_book(book).err()?;
    match place_of_row(version, top, book, fault) {
        Some(place) => Some(WrongBook {
            fault: JsonFault::Invalid(fault),
            place,
        }),
        None => None,
    }
}

// The first fault of a JSON value.
fn place_in_top(alloc: Global, top: &Value) -> Result<Option<WrongBook>, AllocError>
    ensures { IfOk result (λ found. IfSome found (IsInTop (view top.now))) }
{
    let version = match version_of(top) {
        Ok(version) => version,
        Err(TextFault::OutOfMemory) => return Err(AllocError),
        Err(TextFault::Shape(Part::Top)) => {
            return Ok(Some(WrongBook {
                fault: JsonFault::Shape(Part::Top),
                place: BookPlace::Keys,
            }));
        }
        Err(fault) => {
            return Ok(Some(WrongBook {
                fault: JsonFault::from(fault),
                place: BookPlace::Version,
            }));
        }
    };
    let mut book = Book::new(alloc);
    match place_in_lists(version, &ROW_LISTS, top, &mut book) {
        Ok(None) => Ok(unsound_place(version, top, &book)),
        Ok(Some(wrong)) => Ok(Some(wrong)),
        Err(error) => Err(error),
    }
}

/// The first fault of a text that is no sound book, and where it stands. Nothing where it is one.
pub fn place_in_book(alloc: Global, text: &[u8]) -> Result<Option<WrongBook>, AllocError>
    ensures { IfOk result (λ found. IfSome found (IsWrongBook text.now)) }
{
    match Value::from_slice(alloc, text) {
        Ok(top) => place_in_top(alloc, &top),
        Err(e) if e.is_memory() => Err(AllocError),
        Err(e) => Ok(Some(WrongBook {
            fault: JsonFault::Syntax,
            place: BookPlace::Syntax(e.line(), e.column()),
        })),
    }
}
