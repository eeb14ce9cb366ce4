//! Batch files and reply files, read and written over sources and sinks that can fail.
#![tactic(auto)]

mod bodies;
mod body_count;
mod decider;
mod fields;
mod file_item;
mod frames;
mod handing;
mod in_order;
mod piece;
mod reader;
mod replies;
mod reply_reading;
mod signals;
mod strictness;
mod window;
mod writing;

pub use bodies::write_batch;
pub use body_count::BodyCount;
pub use file_laws::BatchFault;
pub use frames::read_batch;
pub use in_order::{Answered, Decided, decide_in_order};
pub use replies::{add_replies, write_replies};
pub use reply_reading::read_replies;
pub use strictness::Strictness;
pub use window::Window;
pub use writing::{add_head, add_long, put_all};
