//! Why a message is decided so: the rule that decides it, and the rows that it reads and writes.
#![tactic(auto)]

mod advices;
mod card_facts;
mod explaining;
mod explanation;
mod messages;
mod requests;
mod reversal_facts;
mod reversals;
mod rows;
mod seen;

pub use explaining::{explain, explain_at};
pub use explanation::Explanation;
pub use messages::rule_of;
