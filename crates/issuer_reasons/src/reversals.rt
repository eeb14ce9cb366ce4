ghost use Rattle.std.specs.Prelude.{◌≡◌, Some, None};
ghost use Rattle.issuer_rows.specs.ReversalTable as table;
ghost use Rattle.issuer_rows.specs.declared.original_row.OriginalRow.TheVariants as original;
ghost use Rattle.issuer_laws.specs.Rules.{reversal_rule};
ghost use Rattle.issuer_reasons.specs.Behind.{reversal_rule_behind};

use crate::reversal_facts::ReversalFacts;
use iso8583::{Amount, OriginalKind, Reversal, ReversalScope};
use issuer_laws::DecisionRule;
use issuer_rows::{Funds, Kept, OriginalRow, VelocityRow};
use issuer_rules::{is_same_identity, is_same_kind};

// The most that an account or a budget may have, in minor units.
const GREATEST_BALANCE: u64 = 1_000_000_000_000_000;

// The rule of a reversal.
pub(crate) fn rule_of_reversal(reversal: &Reversal, facts: &ReversalFacts) -> DecisionRule
    ensures { result ≡ reversal_rule reversal.now facts.now }
{
    match &facts.seen {
        None => DecisionRule::NoOriginal,
        Some(OriginalRow::Ahead(_)) => DecisionRule::MarkedBefore,
        Some(OriginalRow::Kept(kept)) => rule_by_original(reversal, kept, facts),
    }
}

// The rule of a reversal whose original is kept: whether it may be reversed.
fn rule_by_original(reversal: &Reversal, kept: &Kept, facts: &ReversalFacts) -> DecisionRule
    requires { facts.now.seen ≡ Some (original.Kept kept.now) }
    ensures { result ≡ reversal_rule_behind 2 reversal.now facts.now }
{
    if !is_named(reversal, kept) {
        return DecisionRule::OtherOriginal;
    }
    if let Some(by) = kept.outcome().reversal() {
        if is_same_identity(&by, &reversal.transaction.identity()) && reversal.repeat {
            return DecisionRule::ReversalRepeat;
        }
        return DecisionRule::ReversedBefore;
    }
    if kept.outcome().payment().is_none() {
        return DecisionRule::NotPosted;
    }
    if is_wrong_part(reversal, kept) {
        return DecisionRule::WrongPart;
    }
    match &facts.paid {
        Some(paid) => rule_by_payer(reversal, kept, paid, facts),
        None => DecisionRule::NoPayer,
    }
}

// The rule of a reversal of which it is known what paid: its day, then whether the money can go back.
fn rule_by_payer(
    reversal: &Reversal,
    kept: &Kept,
    paid: &Funds,
    facts: &ReversalFacts,
) -> DecisionRule
    requires seen { facts.now.seen ≡ Some (original.Kept kept.now) }
    requires paid { facts.now.paid ≡ Some paid.now }
    ensures { result ≡ reversal_rule_behind 8 reversal.now facts.now }
{
    let is_request = is_same_kind(kept.outcome().kind(), OriginalKind::Request);
    if is_request && facts.day.is_none() {
        return DecisionRule::NoDay;
    }
    if GREATEST_BALANCE < paid.balance().minor() + given_back(reversal, kept).minor() {
        return DecisionRule::BalanceTooGreat;
    }
    match &facts.day {
        Some(day) if is_request && is_short(reversal, kept, day) => DecisionRule::DayTooShort,
        _ => DecisionRule::GivenBack,
    }
}

// Whether the original is of the reversal's card and of the kind that it names.
fn is_named(reversal: &Reversal, kept: &Kept) -> bool
    ensures { result ≡ table.is_named reversal.now kept.now }
{
    kept.card() == reversal.transaction.pan
        && is_same_kind(kept.outcome().kind(), reversal.original.kind)
}

// Whether a partial reversal names another amount of the original, or leaves no less than that.
fn is_wrong_part(reversal: &Reversal, kept: &Kept) -> bool
    ensures { result ≡ table.is_wrong_part reversal.now.scope reversal.now.transaction.amount kept.now.amount }
{
    match reversal.scope {
        ReversalScope::Full => false,
        ReversalScope::Partial(claimed) => {
            !(claimed.minor() == kept.amount().minor())
                || !(reversal.transaction.amount.minor() < kept.amount().minor())
        }
    }
}

// How much of the original the reversal gives back.
fn given_back(reversal: &Reversal, kept: &Kept) -> Amount
    ensures { result ≡ table.given_back reversal.now kept.now }
{
    match reversal.scope {
        ReversalScope::Full => kept.amount(),
        ReversalScope::Partial(_) => kept.amount().saturating_sub(reversal.transaction.amount),
    }
}

// Whether the original's day has no approval to take, or less money than is given back.
fn is_short(reversal: &Reversal, kept: &Kept, day: &VelocityRow) -> bool
    ensures { result ≡ table.day_is_short reversal.now kept.now day.now }
{
    let amount = given_back(reversal, kept).minor();
    let has_none = match reversal.scope {
        ReversalScope::Full => day.count.number() == 0,
        ReversalScope::Partial(_) => false,
    };
    has_none || day.sum.minor() < amount
}
