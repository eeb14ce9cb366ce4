//! The text of a book piece by piece, which several threads make ahead.
#![tactic(auto)]

mod book_writer;
mod listing;
mod of_rows;
mod pieces;
mod sheet;
mod sheets;
mod sorting;
mod span;
mod text_left;

pub use book_writer::BookWriter;
pub use of_rows::OfRows;
pub use pieces::BookPieces;
pub use sorting::Sorting;
