//! Decides a batch in parts of which no two need the same row, each on a thread of its own, without a lock; and to which part each message
//! belongs.
#![tactic(auto)]

mod card_hints;
mod component;
mod decided_part;
mod deciding;
mod disjoint_sets;
mod gathering;
mod joining;
mod key_number;
mod link;
mod needs;
mod on_copy;
mod packing;
mod part_rows;
mod part_table;
mod parts_plan;
mod planning;
mod running;
mod ties;
mod writing;

pub use parts_plan::PartsPlan;
pub use planning::plan_parts;
pub use running::{run_apart, run_parts};
pub use writing::{put_book, put_book_noted};
