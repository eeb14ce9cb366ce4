//! What is done with the files of a book and its batches, from their bytes to their bytes.
#![tactic(auto)]

mod admitting;
mod auditing;
mod auditing_blocks;
mod block_count;
mod blocks_in_turn;
mod deciding;
mod deciding_blocks;
mod halt;
mod job_fault;
mod opening;
mod placing;
mod serial;
mod writing;
mod written_answer;

pub use admitting::admit;
pub use auditing::{audit_batch, audit_batch_with_journal};
pub use auditing_blocks::audit_block_files;
pub use block_count::BlockCount;
pub use blocks_in_turn::serial_blocks;
pub use deciding::decide_batch;
pub use deciding_blocks::decide_blocks;
pub use halt::Halt;
pub use job_fault::JobFault;
pub use opening::{open_batch, open_book, open_inputs, open_replies};
pub use placing::{alone, both, written};
pub use serial::serial_batch;
pub use writing::{write_book, write_outcome};
