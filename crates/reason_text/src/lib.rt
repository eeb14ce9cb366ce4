//! Why a message is decided so, as lines for people: card numbers are masked, and amounts are in minor units.
#![tactic(auto)]

mod account_row_words;
mod account_words;
mod accounts_words;
mod advice_words;
mod answer_words;
mod approval_words;
mod budget_words;
mod card_words;
mod day_words;
mod fault_words;
mod found_words;
mod frame_words;
mod identity_words;
mod kept_words;
mod key_words;
mod kind_words;
mod lines;
mod mark_words;
mod named_words;
mod outcome_words;
mod payment_words;
mod reply_words;
mod request_words;
mod reversal_words;
mod reversed_words;
mod row_words;
mod rule_words;
mod scope_words;
mod settlement_words;
mod status_words;
mod transaction_words;

pub use frame_words::FrameWords;
pub use lines::lines_of;
pub use rule_words::RuleWords;
