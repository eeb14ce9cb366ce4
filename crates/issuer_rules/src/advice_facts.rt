ghost use Rattle.std.specs.Prelude.{◌≡◌, ◌≤◌, ◌&&◌, nat_le, IfSome};
ghost use Rattle.issuer_rows.specs.AdviceTable as table;
ghost use Rattle.issuer_rows.specs.Funds.{balance_of};

use iso8583::{AccountId, Transaction};
use issuer_rows::{AccountRow, BudgetMode, BudgetRow, Funds};

// The account, if there is as much available.
fn account_if_covered(
    transaction: &Transaction,
    id: AccountId,
    account: &AccountRow,
) -> Option<Funds>
    ensures funds { result ≡ table.account_if_covered transaction.now id account.now }
    ensures covered { IfSome result (λ f. transaction.now.amount ≤ balance_of f) }
{
    if transaction.amount.minor() <= account.available.minor() {
        Some(Funds::Account(id, *account))
    } else {
        None
    }
}

// Whether the amount is within the budget's cap and what is left of it.
fn is_within(transaction: &Transaction, budget: &BudgetRow) -> bool
    ensures { result ≡ (nat_le transaction.now.amount budget.now.cap && nat_le transaction.now.amount budget.now.left) }
{
    let amount = transaction.amount.minor();
    amount <= budget.cap.minor() && amount <= budget.left.minor()
}

// What pays for an advice, if anything does: a budget that stands in, or else the account.
pub(crate) fn advice_funds(
    transaction: &Transaction,
    id: AccountId,
    account: &AccountRow,
    budget: &Option<BudgetRow>,
) -> Option<Funds>
    ensures funds { result ≡ table.advice_funds transaction.now id account.now budget.now }
    ensures covered { IfSome result (λ f. transaction.now.amount ≤ balance_of f) }
{
    match budget {
        Some(budget) => match budget.mode {
            BudgetMode::StandIn => budget_or_account(transaction, id, account, budget),
            BudgetMode::Direct => account_if_covered(transaction, id, account),
        },
        None => account_if_covered(transaction, id, account),
    }
}

// A budget that stands in, if the amount is within it, or else the account.
fn budget_or_account(
    transaction: &Transaction,
    id: AccountId,
    account: &AccountRow,
    budget: &BudgetRow,
) -> Option<Funds>
    ensures funds { result ≡ table.budget_by_mode BudgetMode.StandIn transaction.now budget.now (table.account_if_covered transaction.now id account.now) }
    ensures covered { IfSome result (λ f. transaction.now.amount ≤ balance_of f) }
{
    if is_within(transaction, budget) {
        return Some(Funds::Budget(transaction.pan.prefix(), *budget));
    }
    account_if_covered(transaction, id, account)
}
