//! A core that keeps a journal of what was asked of it, and the journal played again (Block-STM); a core that keeps none; and workers' turns on
//! one thread, in an order that the caller chooses.
#![tactic(auto)]

mod asking;
mod deciding;
mod driving;
mod entering;
mod hands;
mod holding;
mod laws;
mod logged_rows;
mod replaying;
mod shared_core;
mod traced;
mod turns;
mod untraced;

pub use driving::drive;
pub use holding::Holding;
pub use laws::drives_are_determined;
pub use replaying::{decide_on_log, replay};
pub use shared_core::SharedCore;
pub use stm_journal_text::{
    CoreAnswer, Entry, Event, ReplayFault, no_two_journals_have_one_text,
    played_entries_are_decided, plays_are_determined, read_journal, write_journal, write_key,
};
pub use traced::Traced;
pub use untraced::Untraced;
