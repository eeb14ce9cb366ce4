//! What the files of a run mean to whoever reads them later, and what the program says of them, as laws.
#![tactic(auto)]

mod acted_laws;
mod audit_laws;
mod journal_files;
mod next_day_laws;
mod repeat_laws;
mod run_files;

pub use acted_laws::{
    an_audit_by_the_journal_right_behind_its_run_says_same, an_audit_right_behind_a_run_says_same,
};
pub use audit_laws::{an_audit_behind_a_run_says_same, an_audit_behind_blocks_says_same};
pub use journal_files::{
    an_audit_by_the_journal_of_a_run_says_same, an_audit_of_the_files_of_a_journaled_run_says_same,
};
pub use next_day_laws::{tomorrow_reads_todays_book, two_runs_are_one};
pub use repeat_laws::a_repeat_to_a_later_run_is_answered_alike;
pub use run_files::{
    an_audit_of_the_files_of_a_run_says_same, an_audit_of_the_files_of_blocks_says_same,
};
