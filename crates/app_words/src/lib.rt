//! The program's words: its command line, what it asks for, words and topics that commands share, and how what is said goes out.
#![tactic(auto)]

mod asked;
mod command;
mod command_line;
mod engine_choice;
mod form;
mod laws;
mod line_fault;
mod numbers;
mod progress;
mod saying;
mod streams;
mod topic;
mod topic_text;
mod words;

pub use asked::read_arguments;
pub use command::Command;
pub use engine_choice::EngineChoice;
pub use form::Form;
pub use laws::plain_arguments_are_read;
pub use line_fault::LineFault;
pub use numbers::number_in;
pub use progress::take_progress;
pub use saying::{put, status_of};
pub use streams::{names_standard_output, with_streams};
pub use topic::{Topic, topic_asked};
pub use words::{asks_help, is_command, is_word};
