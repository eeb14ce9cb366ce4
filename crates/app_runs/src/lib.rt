//! Batches and block files decided by an engine, from the files' bytes to their bytes.
#![tactic(auto)]

mod answers;
mod deciding;
mod hexadecimal;
mod read_alike;
mod running;
mod running_blocks;
mod sample;
mod traced_answer;
mod tracing;
mod tracing_rows;

pub use answers::answer_on;
pub use deciding::decide_by;
pub use hexadecimal::decide_one;
pub use running::run_batch;
pub use running_blocks::run_blocks;
pub use sample::sample_book;
pub use tracing::run_batch_with_journal;
