ghost use Rattle.std.specs.Prelude.{◌≡◌, option_map};
ghost use Rattle.issuer_rows.specs.ReversalTable as table;
ghost use Rattle.issuer_rows.specs.declared.funds.Funds.TheVariants as funds;

use crate::facts::is_same_kind;
use iso8583::{AccountId, Amount, PanPrefix, Reversal, ReversalScope};
use issuer_rows::{AccountRow, BudgetRow, Funds, Kept, VelocityRow};

// Whether the original is of the reversal's card and of the kind that it names.
pub(crate) fn is_named(reversal: &Reversal, kept: &Kept) -> bool
    ensures { result ≡ table.is_named reversal.now kept.now }
{
    kept.card() == reversal.transaction.pan
        && is_same_kind(kept.outcome().kind(), reversal.original.kind)
}

// Whether a partial reversal names another amount of the original, or leaves no less than that.
pub(crate) fn is_wrong_part(reversal: &Reversal, kept: &Kept) -> bool
    ensures { result ≡ table.is_wrong_part reversal.now.scope reversal.now.transaction.amount kept.now.amount }
{
    match reversal.scope {
        ReversalScope::Full => false,
        ReversalScope::Partial(claimed) => {
            !(claimed.minor() == kept.amount().minor())
                || !(reversal.transaction.amount.minor() < kept.amount().minor())
        }
    }
}

// How much of the original the reversal gives back.
pub(crate) fn given_back(reversal: &Reversal, kept: &Kept) -> Amount
    ensures { result ≡ table.given_back reversal.now kept.now }
{
    match reversal.scope {
        ReversalScope::Full => kept.amount(),
        ReversalScope::Partial(_) => kept.amount().saturating_sub(reversal.transaction.amount),
    }
}

// Whether the original's day has no approval to take, or less money than is given back.
pub(crate) fn day_is_short(reversal: &Reversal, kept: &Kept, day: &VelocityRow) -> bool
    ensures { result ≡ table.day_is_short reversal.now kept.now day.now }
{
    let amount = given_back(reversal, kept).minor();
    let has_none = match reversal.scope {
        ReversalScope::Full => day.count.number() == 0,
        ReversalScope::Partial(_) => false,
    };
    has_none || day.sum.minor() < amount
}

// The original's day, less what is given back.
pub(crate) fn spent_less(reversal: &Reversal, kept: &Kept, day: &VelocityRow) -> VelocityRow
    ensures { result ≡ table.spent_less reversal.now kept.now day.now }
{
    let count = match reversal.scope {
        ReversalScope::Full => day.count.saturating_previous(),
        ReversalScope::Partial(_) => day.count,
    };
    VelocityRow {
        count,
        sum: day.sum.saturating_sub(given_back(reversal, kept)),
    }
}

// The account that paid, if it has a row.
pub(crate) fn account_funds(id: AccountId, account: Option<AccountRow>) -> Option<Funds>
    ensures { result ≡ option_map (funds.Account id) account }
{
    match account {
        Some(account) => Some(Funds::Account(id, account)),
        None => None,
    }
}

// The budget that paid, if it has a row.
pub(crate) fn budget_funds(prefix: PanPrefix, budget: Option<BudgetRow>) -> Option<Funds>
    ensures { result ≡ option_map (funds.Budget prefix) budget }
{
    match budget {
        Some(budget) => Some(Funds::Budget(prefix, budget)),
        None => None,
    }
}
