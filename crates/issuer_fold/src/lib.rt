//! Bodies decided one after another, in the order of their arrival: over a book, or on a book itself, which can be given back what it was,
//! without a copy, and without memory.
#![tactic(auto)]

mod formers;
mod frames;
mod in_place;
mod look_ahead;
mod plain_rows;
mod prefix;
mod run_outcome;
mod serial;

pub use formers::Formers;
pub use frames::are_same_frames;
pub use in_place::{InPlace, decide_in_place};
pub use look_ahead::LookAhead;
pub use plain_rows::PlainRows;
pub use prefix::Prefix;
pub use run_outcome::RunOutcome;
pub use serial::decide_all_by;
