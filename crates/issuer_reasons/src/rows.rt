ghost use Rattle.std.specs.Prelude.{◌≡◌};
ghost use Rattle.std.specs.FinMap as map;
ghost use Rattle.issuer_rows.specs.Typed as typed;

use iso8583::{AccountId, Day, Identity, Pan, PanPrefix};
use issuer_rows::{AccountRow, Book, BudgetRow, CardRow, OriginalRow, RowKey, RowVal, VelocityRow};

// The card of this number, if it has a row.
pub(crate) fn card_of(book: &Book, pan: Pan) -> Option<CardRow>
    ensures { result ≡ typed.card_in (map.get book.now (RowKey.Card pan)) }
{
    match book.get(&RowKey::Card(pan)) {
        Some(RowVal::Card(card)) => Some(card),
        _ => None,
    }
}

// What was spent with the card on this day, if there is a row.
pub(crate) fn spent_on(book: &Book, pan: Pan, day: Day) -> Option<VelocityRow>
    ensures { result ≡ typed.velocity_in (map.get book.now (RowKey.Velocity pan day)) }
{
    match book.get(&RowKey::Velocity(pan, day)) {
        Some(RowVal::Velocity(spent)) => Some(spent),
        _ => None,
    }
}

// The budget of this prefix, if it has a row.
pub(crate) fn budget_of(book: &Book, prefix: PanPrefix) -> Option<BudgetRow>
    ensures { result ≡ typed.budget_in (map.get book.now (RowKey.Budget prefix)) }
{
    match book.get(&RowKey::Budget(prefix)) {
        Some(RowVal::Budget(budget)) => Some(budget),
        _ => None,
    }
}

// What is known of the message of this identity.
pub(crate) fn original_of(book: &Book, identity: Identity) -> Option<OriginalRow>
    ensures { result ≡ typed.original_in (map.get book.now (RowKey.Original identity)) }
{
    let row = book.get(&RowKey::Original(identity));
    original_in(&row)
}

// The original in a row or its mark, if there is one.
fn original_in(row: &Option<RowVal>) -> Option<OriginalRow>
    ensures { result ≡ typed.original_in row.now }
{
    match row {
        Some(RowVal::Kept(kept)) => Some(OriginalRow::Kept(*kept)),
        Some(RowVal::Ahead(mark)) => Some(OriginalRow::Ahead(*mark)),
        _ => None,
    }
}

// The account of this name, if it has a row.
pub(crate) fn account_of(book: &Book, id: AccountId) -> Option<AccountRow>
    ensures { result ≡ typed.account_in (map.get book.now (RowKey.Account id)) }
{
    match book.get(&RowKey::Account(id)) {
        Some(RowVal::Account(account)) => Some(account),
        _ => None,
    }
}
