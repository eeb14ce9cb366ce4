//! Messages as people are told of them: card numbers with their middle hidden, and what bytes may be that are no message.
#![tactic(auto)]

mod card_numbers;
mod masked_pan;
mod opening;
mod openings;

pub use card_numbers::CardNumbers;
pub use masked_pan::MaskedPan;
pub use opening::Opening;
pub use openings::opening_of;
