//! Entries of a book's text as rows: from JSON values, and token by token from a text as it is written.
#![tactic(auto)]

mod cards;
mod entries;
mod fields;
mod list_entries;
mod null_fields;
mod originals;
mod word_fields;
mod written_rows;
mod written_text;

pub use cards::old_card_of;
pub use fields::{has_keys, number_at};
pub use list_entries::entry_of;
pub use written_rows::row_of;
pub use written_text::WrittenText;
