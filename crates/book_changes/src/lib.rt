//! What changes a book, and what that means: the migration of versions 1 and 2 for money; what leaves a book by a date for messages; and that
//! a book stays a book whatever is decided on it.
#![tactic(auto)]

mod archive_laws;
mod archived;
mod archiving;
mod migration_laws;
mod run_laws;

pub use archive_laws::{
    a_book_is_archived_at_any_time, a_late_message_finds_no_original,
    a_message_of_a_later_day_needs_no_past, both_books_are_sound, both_books_are_the_book,
    days_stay_in_order, what_needs_no_past_is_answered_alike,
};
pub use archived::Archived;
pub use archiving::{archive_book, is_past, put_row};
pub use migration_laws::{migration_keeps_what_backs_each_card, migration_keeps_what_is_available};
pub use run_laws::{
    a_batch_of_such_a_book_again_changes_nothing, a_book_stays_a_book, a_right_reversal_is_done,
};
