//! What the program does for `switch part`, `switch decide` and `switch join`, a batch in parts that are decided anywhere, and for
//! `switch archive`, a book in two by a date.
#![tactic(auto)]

mod answers;
mod archive_apart;
mod archive_asking;
mod archive_count;
mod archive_fault;
mod archive_help;
mod archive_names;
mod archive_placing;
mod archive_telling;
mod archiving;
mod asking;
mod claiming;
mod deciding;
mod fault_lines;
mod folder_lines;
mod help;
mod joining;
mod laws;
mod parting;
mod telling;

pub use archive_asking::{ArchiveAsked, archive_asked};
pub use archive_count::ArchiveCount;
pub use archive_fault::ArchiveFault;
pub use archive_help::ARCHIVE_HELP;
pub use archive_names::ArchiveNames;
pub use archive_telling::answer_archive;
pub use archiving::archive_files;
pub use asking::{PartsAsked, parts_asked};
pub use deciding::decide_part;
pub use help::{DECIDE_HELP, JOIN_HELP, PART_HELP};
pub use joining::join_parts;
pub use laws::parts_are_one_run;
pub use parting::part_files;
pub use telling::answer_parts;
