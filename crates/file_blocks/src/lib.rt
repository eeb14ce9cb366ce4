//! Block files and their reply files, read and written over sources and sinks that can fail; and blocks decided one after
//! another, each answered before the next is read.
#![tactic(auto)]

mod block_files;
mod block_processing;
mod block_replies;
mod blocks;
mod kept_blocks;

pub use block_files::read_blocks;
pub use block_processing::{BlocksOutcome, Halted, process_blocks};
pub use block_replies::read_block_replies;
