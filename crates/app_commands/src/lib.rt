//! What the program does for its words.
#![tactic(auto)]

mod apart;
mod claims;
mod doing;
mod fault;
mod printer;
mod program;
mod refusal;
mod report;

pub use fault::Fault;
pub use printer::Printer;
pub use program::{act, print_fault};
pub use report::Report;
