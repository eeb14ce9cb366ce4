//! The log of a live host, read entry by entry and written behind its last whole entry; over a file that only grows, whose every call can fail:
//! in memory, with what a crash keeps of it, or one of the host.
#![tactic(auto)]

mod appending;
mod begun;
mod bodies;
mod body_iter;
mod chain;
mod growing_file;
mod host_log;
mod input;
mod log_end;
mod log_input;
mod log_reader;
mod log_step;
mod log_writer;
mod memory_log;
mod open_fault;
mod part;
mod part_reading;
mod reading;
mod splitting;
mod synced;
mod unbegun;

pub use begun::Begun;
pub use bodies::Bodies;
pub use body_iter::BodyIter;
pub use file_laws::LogFault;
pub use growing_file::GrowingFile;
pub use host_log::HostLog;
pub use log_end::LogEnd;
pub use log_input::LogInput;
pub use log_reader::LogReader;
pub use log_step::LogStep;
pub use log_writer::LogWriter;
pub use memory_log::MemoryLog;
pub use open_fault::OpenFault;
pub use reading::{WholeLog, read_log};
pub use synced::Synced;
