//! The speculative core as definitions (Block-STM): its state, its steps and its runs, and the law that what it commits is
//! what deciding one message after another gives.
#![tactic(auto)]

mod core_fault;
mod got;
mod laws;
mod limits;
mod logged;
mod seat;
mod validation;

pub use core_fault::CoreFault;
pub use got::Got;
pub use laws::{committed_is_the_fold, steps_are_determined};
pub use limits::Limits;
pub use logged::Logged;
pub use seat::Seat;
pub use validation::Validation;
