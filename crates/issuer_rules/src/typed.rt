ghost use Rattle.std.specs.Prelude.{◌≡◌};
ghost use Rattle.issuer_rows.specs.Typed as typed;

use issuer_rows::{
    AccountRow, Balance, BudgetRow, CardRow, Count, OriginalRow, RowVal, VelocityRow,
};

// The card in a row, if there is one.
pub(crate) fn card_in(row: &Option<RowVal>) -> Option<CardRow>
    ensures { result ≡ typed.card_in row.now }
{
    match row {
        Some(RowVal::Card(card)) => Some(*card),
        _ => None,
    }
}

// The card's day in a row, if there is one.
pub(crate) fn velocity_in(row: &Option<RowVal>) -> Option<VelocityRow>
    ensures { result ≡ typed.velocity_in row.now }
{
    match row {
        Some(RowVal::Velocity(day)) => Some(*day),
        _ => None,
    }
}

// The budget in a row, if there is one.
pub(crate) fn budget_in(row: &Option<RowVal>) -> Option<BudgetRow>
    ensures { result ≡ typed.budget_in row.now }
{
    match row {
        Some(RowVal::Budget(budget)) => Some(*budget),
        _ => None,
    }
}

// The account in a row, if there is one.
pub(crate) fn account_in(row: &Option<RowVal>) -> Option<AccountRow>
    ensures { result ≡ typed.account_in row.now }
{
    match row {
        Some(RowVal::Account(account)) => Some(*account),
        _ => None,
    }
}

// The original in a row or its mark, if there is one.
pub(crate) fn original_in(row: &Option<RowVal>) -> Option<OriginalRow>
    ensures { result ≡ typed.original_in row.now }
{
    match row {
        Some(RowVal::Kept(kept)) => Some(OriginalRow::Kept(*kept)),
        Some(RowVal::Ahead(mark)) => Some(OriginalRow::Ahead(*mark)),
        _ => None,
    }
}

// What was spent on a day: nothing where there is no row.
pub(crate) fn spent_in(day: Option<VelocityRow>) -> VelocityRow
    ensures { result ≡ typed.spent_in day }
{
    match day {
        Some(day) => day,
        None => VelocityRow {
            count: Count::ZERO,
            sum: Balance::ZERO,
        },
    }
}
