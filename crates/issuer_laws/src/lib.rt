//! Laws of the decision tables, for every book and whatever comes: of repeats and originals, money, limits of cards, parts of a batch, and
//! rules.
#![tactic(auto)]

mod decision_rule;
mod limit_laws;
mod money_laws;
mod part_laws;
mod repeat_laws;
mod rule_laws;

pub use decision_rule::DecisionRule;
pub use limit_laws::{
    a_card_stays, approval_codes_of_a_card_differ, days_have_what_reversals_take,
    no_day_passes_its_limits,
};
pub use money_laws::{
    a_full_reversal_undoes_its_original, every_decision_keeps_backing, totals_of_replies_reconcile,
};
pub use part_laws::{
    a_message_needs_no_other_row, messages_that_share_no_row_take_any_order,
    parts_are_decided_alone,
};
pub use repeat_laws::{
    a_batch_again_changes_nothing, a_repeat_is_answered_alike, a_second_reversal_is_a_duplicate,
    an_original_is_kept_for_good, each_reply_repeats_its_message,
};
pub use rule_laws::the_first_rule_decides;
