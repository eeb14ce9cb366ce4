//! The shipped decision: what a message is answered, and which rows it writes; and bodies decided by it one after another.
#![tactic(auto)]

mod advice;
mod advice_answers;
mod advice_facts;
mod facts;
mod put_funds;
mod request;
mod request_answers;
mod request_facts;
mod reversal;
mod reversal_answers;
mod reversal_facts;
mod reversal_refunds;
mod serial;
mod shipped;
mod typed;

pub use facts::{is_marked, is_of_same, is_same_identity, is_same_kind};
pub use serial::decide_all;
pub use shipped::{Shipped, decide};
