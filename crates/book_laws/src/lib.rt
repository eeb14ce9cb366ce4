//! What a book's text means: its parts, versions and faults, and what its entries say of cards and originals.
#![tactic(auto)]

mod book_fault;
mod book_version;
mod checking;
mod json_fault;
mod old_card;
mod original_entry;
mod paid;
mod paid_from;
mod part;
mod row_list;
mod text_fault;

pub use book_fault::BookFault;
pub use book_version::BookVersion;
pub use checking::{
    check_book, check_book_by, has_account, has_accounts, has_paying_account, has_right_number,
};
pub use json_fault::JsonFault;
pub use old_card::{OldCard, own_account};
pub use original_entry::OriginalEntry;
pub use paid::Paid;
pub use part::Part;
pub use row_list::{ROW_LISTS, RowList};
pub use text_fault::TextFault;
