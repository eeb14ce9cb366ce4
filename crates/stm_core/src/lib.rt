//! The speculative core (Block-STM): it hands out messages to be executed and validated, keeps what their executions wrote in a
//! multi-version memory, and commits them in the order of the batch by their stamps.
#![tactic(auto)]

mod execution_slot;
mod frames;
mod log;
mod logging;
mod read;
mod slots;
mod speculative;
mod standing;
mod unread;
mod validations;

pub use speculative::Core;
pub use unread::Unread;
