//! Sources and sinks of bytes, whose calls can fail: those of readers and writers, and ones in memory that fail at a stated call; and
//! bytes that are made piece by piece.
#![tactic(auto)]

mod batch_names;
mod broken;
mod claim_fault;
mod failing;
mod files;
mod host;
mod host_reason;
mod memory;
mod memory_input;
mod pieces;
mod read_fault;
mod reading;
mod sink;
mod source;
mod whole;
mod write_fault;
mod written;

pub use batch_names::BatchNames;
pub use broken::Broken;
pub use claim_fault::ClaimFault;
pub use failing::{FailingSink, FailingSource};
pub use files::Files;
pub use host::{HostClaim, HostFiles, HostOutput};
pub use host_reason::HostReason;
pub use memory::MemoryFiles;
pub use memory_input::MemoryInput;
pub use pieces::Pieces;
pub use read_fault::ReadFault;
pub use reading::{read_again, read_file};
pub use sink::{IntoWrite, Sink};
pub use source::{FromRead, Source};
pub use whole::Whole;
pub use write_fault::WriteFault;
pub use written::Written;
