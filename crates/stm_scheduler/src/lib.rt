//! The scheduler (Block-STM): where each message stands, which is handed out next, and when it commits.
#![tactic(auto)]

mod choice;
mod laws;
mod message_progress;
mod scheduler;
mod status;
mod task;
mod waiters;

pub use laws::choices_are_determined;
pub use message_progress::MessageProgress;
pub use scheduler::Scheduler;
pub use status::Status;
pub use task::Task;
