//! The messages of a log decided again: their replies, block by block, and the book after them.
#![tactic(auto)]

mod answering;
mod block_writing;
mod copying;
mod gathering;
mod log_blocks;
mod log_size;
mod measuring;
mod replay_fault;
mod replayed;
mod replaying;

pub use log_blocks::read_log_blocks;
pub use log_size::LogSize;
pub use measuring::measure_log;
pub use replay_fault::ReplayFault;
pub use replayed::Replayed;
pub use replaying::replay_log;
