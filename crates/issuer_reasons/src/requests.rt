ghost use Rattle.std.specs.Prelude.{◌≡◌, Some, None};
ghost use Rattle.issuer_laws.specs.Rules.{request_rule};
ghost use Rattle.issuer_reasons.specs.Behind.{request_rule_behind};
ghost use Rattle.issuer_rows.specs.RequestTable as table;

use crate::card_facts::CardFacts;
use crate::seen::rule_of_seen;
use iso8583::{OriginalKind, Request, luhn};
use issuer_laws::DecisionRule;
use issuer_rows::{AccountRow, BudgetMode, BudgetRow, CardRow, CardStatus};

// The rule of a request.
pub(crate) fn rule_of_request(request: &Request, facts: &CardFacts) -> DecisionRule
    ensures { result ≡ request_rule request.now facts.now }
{
    match &facts.seen {
        Some(seen) => rule_of_seen(
            seen,
            &request.transaction,
            OriginalKind::Request,
            request.repeat,
        ),
        None => rule_of_unseen(request, facts),
    }
}

// The rule of a request whose identity wasn't seen before.
fn rule_of_unseen(request: &Request, facts: &CardFacts) -> DecisionRule
    ensures { result ≡ request_rule_behind 4 request.now facts.now }
{
    if is_unpermitted(request) {
        return DecisionRule::NotPermitted;
    }
    if request.transaction.amount.minor() == 0 {
        return DecisionRule::NoAmount;
    }
    if !luhn(&request.transaction.pan) {
        return DecisionRule::WrongCardNumber;
    }
    match &facts.card {
        Some(card) => rule_by_card(request, card, facts),
        None => DecisionRule::NoCard,
    }
}

// The rule of a request whose card is known: what the card refuses, then its account.
fn rule_by_card(request: &Request, card: &CardRow, facts: &CardFacts) -> DecisionRule
    requires { facts.now.card ≡ Some card.now }
    ensures { result ≡ request_rule_behind 8 request.now facts.now }
{
    match card.status {
        CardStatus::Active => rule_by_expiry(request, card, facts),
        CardStatus::Blocked => DecisionRule::CardBlocked,
        CardStatus::Lost => DecisionRule::CardLost,
        CardStatus::Stolen => DecisionRule::CardStolen,
    }
}

// The rule of a request of a card in use.
fn rule_by_expiry(request: &Request, card: &CardRow, facts: &CardFacts) -> DecisionRule
    requires { facts.now.card ≡ Some card.now }
    ensures { result ≡ request_rule_behind 11 request.now facts.now }
{
    if card.expiry.is_before(&request.transaction.stamp) {
        return DecisionRule::CardExpired;
    }
    if facts.named.is_none() {
        return DecisionRule::NotOfCard;
    }
    match &facts.account {
        Some(account) => rule_by_account(request, card, account, facts),
        None => DecisionRule::NoAccount,
    }
}

// The rule of a request whose account is known: its currency, then the limits of the card.
fn rule_by_account(
    request: &Request,
    card: &CardRow,
    account: &AccountRow,
    facts: &CardFacts,
) -> DecisionRule
    requires card { facts.now.card ≡ Some card.now }
    requires account { facts.now.account ≡ Some account.now }
    ensures { result ≡ request_rule_behind 14 request.now facts.now }
{
    let spent = facts.day.sum.minor() + request.transaction.amount.minor();
    if request.transaction.currency != account.currency {
        return DecisionRule::OtherCurrency;
    }
    if card.day_count.number() < facts.day.count.number() + 1 {
        return DecisionRule::TooManyApprovals;
    }
    if card.day_amount.minor() < spent {
        return DecisionRule::TooMuchMoney;
    }
    if card.approvals.number() >= 999_999 {
        return DecisionRule::ApprovalsExhausted;
    }
    rule_by_funds(request, account, facts)
}

// The rule of a request that its card's limits allow: what pays.
fn rule_by_funds(request: &Request, account: &AccountRow, facts: &CardFacts) -> DecisionRule
    requires { facts.now.account ≡ Some account.now }
    ensures { result ≡ request_rule_behind 18 request.now facts.now }
{
    match &facts.budget {
        Some(
            BudgetRow {
                mode: BudgetMode::StandIn,
                cap,
                left,
            },
        ) => {
            if cap.minor() < request.transaction.amount.minor()
                || left.minor() < request.transaction.amount.minor()
            {
                return DecisionRule::BudgetRefuses;
            }
            DecisionRule::BudgetPays
        }
        _ if account.available.minor() < request.transaction.amount.minor() => {
            DecisionRule::NotSufficientFunds
        }
        _ => DecisionRule::AccountPays,
    }
}

// Whether the processing code is neither that of a purchase nor that of a withdrawal.
fn is_unpermitted(request: &Request) -> bool
    ensures { result ≡ table.is_unpermitted request.now }
{
    let kind = request.transaction.processing.transaction_type();
    !(kind == b"00".as_slice() || kind == b"01".as_slice())
}
