//! The multi-version memory (Block-STM): what each execution wrote, by row and index, and what a message sees of a row.
#![tactic(auto)]

mod chain;
mod chains;
mod link;
mod mv_memory;
mod seen;
mod version;
mod written_rows;

pub use chains::Chains;
pub use link::Link;
pub use mv_memory::MvMemory;
pub use seen::Seen;
pub use version::Version;
