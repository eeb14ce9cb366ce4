//! The text of a book, as it is written.
#![tactic(auto)]

mod digest;
mod escapes;
mod field_writers;
mod help;
mod json_writer;
mod listed_rows;
mod member;
mod parts;
mod ranges;
mod row_writers;
mod text_buffer;
mod work_ahead;
mod writing;

pub use digest::digest_of_book;
pub use field_writers::{
    acquirer_field, action_field, amount_field, balance_field, count_field, currency_field,
    day_field, expiry_field, identity_field, kind_field, mode_field, optional_approval_field,
    optional_identity_field, paid_field, prefix_field, processing_field, stamp_field, stan_field,
    status_field,
};
pub use help::{Help, lock_meanwhile, with_help};
pub use json_writer::JsonWriter;
pub use listed_rows::ListedRows;
pub use member::Member;
pub use parts::{LISTS, emptied, first_piece, last_piece, list_behind, piece_between, rows_piece};
pub use ranges::row_is_read;
pub use row_writers::write_entry;
pub use work_ahead::WorkAhead;
pub use writing::{open_list, write_book};
