//! The journal of a run of the core, as text: one line an entry, which says at which seat what was done.
#![tactic(auto)]

mod core_answer;
mod entry;
mod event;
mod events;
mod fields;
mod hexadecimal;
mod keys;
mod play_laws;
mod reading;
mod replay_fault;
mod text_laws;
mod writing;

pub use core_answer::CoreAnswer;
pub use entry::Entry;
pub use event::Event;
pub use play_laws::{played_entries_are_decided, plays_are_determined};
pub use reading::read_journal;
pub use replay_fault::ReplayFault;
pub use text_laws::no_two_journals_have_one_text;
pub use writing::{KEY_ROOM, write_journal, write_key};
