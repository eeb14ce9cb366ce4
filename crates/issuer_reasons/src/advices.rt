ghost use Rattle.std.specs.Prelude.{◌≡◌, Some};
ghost use Rattle.issuer_laws.specs.Rules.{advice_rule};
ghost use Rattle.issuer_reasons.specs.Behind.{advice_rule_behind};

use crate::card_facts::CardFacts;
use crate::seen::rule_of_seen;
use iso8583::{Advice, OriginalKind};
use issuer_laws::DecisionRule;
use issuer_rows::{AccountRow, BudgetMode, BudgetRow};

// The rule of an advice.
pub(crate) fn rule_of_advice(advice: &Advice, facts: &CardFacts) -> DecisionRule
    ensures { result ≡ advice_rule advice.now facts.now }
{
    match &facts.seen {
        Some(seen) => rule_of_seen(
            seen,
            &advice.transaction,
            OriginalKind::Advice,
            advice.repeat,
        ),
        None => rule_of_unseen(advice, facts),
    }
}

// The rule of an advice whose identity wasn't seen before.
fn rule_of_unseen(advice: &Advice, facts: &CardFacts) -> DecisionRule
    ensures { result ≡ advice_rule_behind 4 advice.now facts.now }
{
    if advice.action.code() != 0 {
        return DecisionRule::NotApproved;
    }
    if facts.card.is_none() {
        return DecisionRule::NoCard;
    }
    if facts.named.is_none() {
        return DecisionRule::NotOfCard;
    }
    match &facts.account {
        Some(account) => rule_by_account(advice, account, facts),
        None => DecisionRule::NoAccount,
    }
}

// The rule of an advice whose account is known: its currency, then what pays.
fn rule_by_account(advice: &Advice, account: &AccountRow, facts: &CardFacts) -> DecisionRule
    requires { facts.now.account ≡ Some account.now }
    ensures { result ≡ advice_rule_behind 8 advice.now facts.now }
{
    let amount = advice.transaction.amount.minor();
    if advice.transaction.currency != account.currency {
        return DecisionRule::OtherCurrency;
    }
    match &facts.budget {
        Some(
            BudgetRow {
                mode: BudgetMode::StandIn,
                cap,
                left,
            },
        ) if amount <= cap.minor() && amount <= left.minor() => DecisionRule::BudgetPays,
        _ if amount <= account.available.minor() => DecisionRule::AccountPays,
        _ => DecisionRule::NotSufficientFunds,
    }
}
