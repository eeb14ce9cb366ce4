//! Where a text that is no sound book has its first fault: the line and column, or the list, the entry and its field.
#![tactic(auto)]

mod book_place;
mod field;
mod field_kind;
mod fields;
mod places;
mod wrong_book;
mod wrong_entries;
mod wrong_entry;
mod wrong_row;
mod wrong_rows;

pub use book_place::BookPlace;
pub use field_kind::FieldKind;
pub use places::place_in_book;
pub use wrong_book::WrongBook;
pub use wrong_entry::WrongEntry;
pub use wrong_row::WrongRow;
