//! Files of batches, replies and logs: what they mean, as definitions, and laws of them.
#![tactic(auto)]

mod batch_fault;
mod frames;
mod laws;
mod log_fault;
mod log_laws;
mod reply_texts;

pub use batch_fault::BatchFault;
pub use frames::frame_of;
pub use laws::{
    a_batch_is_read_as_its_bodies, a_batch_that_is_read_is_its_text, blocks_are_one_fold,
    replies_are_read_back, replies_of_blocks_are_read_back,
};
pub use log_fault::LogFault;
pub use log_laws::{
    a_log_is_read_as_its_entries, a_reading_is_the_only_one, every_file_has_a_reading,
    one_digest_is_one_log, what_was_synced_is_read, what_was_torn_is_cut,
};
pub use reply_texts::reply_of;
