//! The book of rows as JSON: reading and writing it.
#![tactic(auto)]

mod book_reader;
mod cutting;
mod lists;
mod read_share;
mod reading;
mod row;
mod share;
mod shares;
mod written;

pub use book_laws::{JsonFault, Part};
pub use book_text::write_book;
pub use lists::{add_entry, has_old_cards};
pub use reading::{read_book, version_of};
