ghost use Rattle.std.specs.Prelude.{◌≡◌, ◌+◌, ◌^◌, ◌<◌, ◌≤◌, Ok, Err, IfOk, IfErr, IfNone};
ghost use Rattle.issuer_rows.specs.RequestTable as table;
ghost use Rattle.issuer_words.specs.Words.{balance_of, kind_of_outcome};
ghost use Rattle.iso8583.specs.declared.original_kind.OriginalKind.TheVariants as kind;

use iso8583::{AccountId, DeclineCode, Request, Transaction, Verdict, luhn};
use issuer_rows::{
    AccountRow, BudgetMode, BudgetRow, CardRow, CardStatus, Funds, OriginalOutcome, VelocityRow,
};

// The kept approval with its code, or the kept action, of a request.
pub(crate) fn kept_verdict(outcome: &OriginalOutcome) -> Verdict
    requires { kind_of_outcome outcome.now ≡ kind.Request }
    ensures { result ≡ table.kept_verdict outcome.now }
{
    match outcome {
        OriginalOutcome::Approved(code, _) => Verdict::Approved(*code),
        OriginalOutcome::Declined(code, _) => Verdict::Declined(*code),
        OriginalOutcome::Accepted(_) | OriginalOutcome::Acknowledged(_, _) => unreachable!(),
    }
}

// Whether the processing code is neither that of a purchase nor that of a withdrawal.
fn is_unpermitted(request: &Request) -> bool
    ensures { result ≡ table.is_unpermitted request.now }
{
    let kind = request.transaction.processing.transaction_type();
    !(kind == b"00".as_slice() || kind == b"01".as_slice())
}

// What a request is refused for before its card is known.
pub(crate) fn refused_unseen(request: &Request) -> Option<DeclineCode>
    ensures { result ≡ table.refused_unseen request.now }
{
    if is_unpermitted(request) {
        return Some(DeclineCode::NOT_PERMITTED);
    }
    if request.transaction.amount.minor() == 0 {
        return Some(DeclineCode::INVALID_AMOUNT);
    }
    if luhn(&request.transaction.pan) {
        None
    } else {
        Some(DeclineCode::INVALID_CARD_NUMBER)
    }
}

// What the card's status refuses.
fn refused_by_status(status: CardStatus) -> Option<DeclineCode>
    ensures { result ≡ table.refused_by_status status }
{
    match status {
        CardStatus::Active => None,
        CardStatus::Blocked => Some(DeclineCode::DO_NOT_HONOUR),
        CardStatus::Lost => Some(DeclineCode::LOST_CARD),
        CardStatus::Stolen => Some(DeclineCode::STOLEN_CARD),
    }
}

// The account that pays, or what the card refuses the request for.
pub(crate) fn usable_account<'a>(
    request: &'a Request,
    card: &'a CardRow,
) -> Result<&'a AccountId, DeclineCode>
    ensures ok { IfOk result (λ id. table.usable_account request.now card.now ≡ Ok id.now) }
    ensures err { IfErr result (λ code. table.usable_account request.now card.now ≡ Err code) }
{
    if let Some(code) = refused_by_status(card.status) {
        return Err(code);
    }
    if card.expiry.is_before(&request.transaction.stamp) {
        return Err(DeclineCode::EXPIRED_CARD);
    }
    match card.accounts.account_of(&request.account) {
        Some(id) => Ok(id),
        None => Err(DeclineCode::NOT_PERMITTED),
    }
}

// What a request is refused for by the limits of its card; else there is room for one more approval.
pub(crate) fn refused_by_limits(
    request: &Request,
    card: &CardRow,
    day: &VelocityRow,
) -> Option<DeclineCode>
    ensures refused { result ≡ table.refused_by_limits request.now card.now day.now }
    ensures approvals { IfNone result (card.now.approvals < 999999) }
    ensures count { IfNone result (day.now.count < 999999) }
    ensures sum { IfNone result (day.now.sum + request.now.transaction.amount ≤ 10 ^ 15) }
{
    let sum = day.sum.minor() + request.transaction.amount.minor();
    if card.day_count.number() < day.count.number() + 1 {
        return Some(DeclineCode::EXCEEDS_FREQUENCY_LIMIT);
    }
    if card.day_amount.minor() < sum {
        return Some(DeclineCode::EXCEEDS_AMOUNT_LIMIT);
    }
    if card.approvals.number() >= 999_999 {
        return Some(DeclineCode::SYSTEM_MALFUNCTION);
    }
    None
}

// The account, if there is as much available.
fn account_funds(
    transaction: &Transaction,
    id: &AccountId,
    account: &AccountRow,
) -> Result<Funds, DeclineCode>
    ensures funds { result ≡ table.account_funds transaction.now id.now account.now }
    ensures covered { IfOk result (λ f. transaction.now.amount ≤ balance_of f) }
{
    if account.available.minor() < transaction.amount.minor() {
        return Err(DeclineCode::NOT_SUFFICIENT_FUNDS);
    }
    Ok(Funds::Account(*id, *account))
}

// The budget, if the amount is within its cap and what is left of it.
fn budget_funds(transaction: &Transaction, budget: &BudgetRow) -> Result<Funds, DeclineCode>
    ensures funds { result ≡ table.budget_funds transaction.now budget.now }
    ensures covered { IfOk result (λ f. transaction.now.amount ≤ balance_of f) }
{
    let amount = transaction.amount.minor();
    if budget.cap.minor() < amount || budget.left.minor() < amount {
        return Err(DeclineCode::ISSUER_INOPERATIVE);
    }
    Ok(Funds::Budget(transaction.pan.prefix(), *budget))
}

// What pays for a request, or what it is refused for.
pub(crate) fn request_funds(
    transaction: &Transaction,
    id: &AccountId,
    account: &AccountRow,
    budget: &Option<BudgetRow>,
) -> Result<Funds, DeclineCode>
    ensures funds { result ≡ table.request_funds transaction.now id.now account.now budget.now }
    ensures covered { IfOk result (λ f. transaction.now.amount ≤ balance_of f) }
{
    match budget {
        Some(budget) => match budget.mode {
            BudgetMode::StandIn => budget_funds(transaction, budget),
            BudgetMode::Direct => account_funds(transaction, id, account),
        },
        None => account_funds(transaction, id, account),
    }
}
