//! Why a message is decided so, as a line of JSON.
#![tactic(auto)]

mod keys;
mod lines;
mod numbers;
mod rows;
mod sets;

pub use lines::why_line;
