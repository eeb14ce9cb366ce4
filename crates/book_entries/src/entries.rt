//! Days, budgets, marks and accounts from their entries.

ghost use Rattle.std.specs.Prelude.{◌≡◌, IfOk};
ghost use Rattle.issuer_rows.specs.RowVal.{IsOfKind};
ghost use Rattle.serde_json.specs.View.{view};
ghost use Rattle.book_laws.specs.Entries.{day_of, budget_of, mark_of, account_of};

use crate::fields::{
    acquirer_at, balance_at, count_at, currency_at, day_at, has_keys, pan_at, prefix_at, stamp_at,
    stan_at,
};
use crate::null_fields::{account_id_at, identity_at};
use crate::word_fields::{kind_at, mode_at};
use book_laws::{Part, TextFault};
use iso8583::Identity;
use issuer_rows::{AccountRow, BudgetRow, Mark, RowKey, RowVal, VelocityRow};
use serde_json::Value;

const DAY_KEYS: [&str; 4] = ["count", "day", "pan", "sum"];

/// What was spent with a card on a day.
#[tactic(auto, unfolding(book_laws::specs::Entries::day_of))]
pub(crate) fn day_of(entry: &Value) -> Result<(RowKey, RowVal), TextFault>
    ensures value { result ≡ day_of (view entry.now) }
    ensures kind { IfOk result (λ row. IsOfKind row.0 row.1) }
{
    if !has_keys(entry, &DAY_KEYS) {
        return Err(TextFault::Shape(Part::Days));
    }
    let count = count_at(Part::Days, entry, "count")?;
    let day = day_at(Part::Days, entry, "day")?;
    let pan = pan_at(Part::Days, entry, "pan")?;
    let sum = balance_at(Part::Days, entry, "sum")?;
    let row = VelocityRow { count, sum };
    Ok((RowKey::Velocity(pan, day), RowVal::Velocity(row)))
}

const BUDGET_KEYS: [&str; 4] = ["cap", "left", "mode", "prefix"];

/// A stand-in budget.
#[tactic(auto, unfolding(book_laws::specs::Entries::budget_of))]
pub(crate) fn budget_of(entry: &Value) -> Result<(RowKey, RowVal), TextFault>
    ensures value { result ≡ budget_of (view entry.now) }
    ensures kind { IfOk result (λ row. IsOfKind row.0 row.1) }
{
    if !has_keys(entry, &BUDGET_KEYS) {
        return Err(TextFault::Shape(Part::Budgets));
    }
    let cap = balance_at(Part::Budgets, entry, "cap")?;
    let left = balance_at(Part::Budgets, entry, "left")?;
    let mode = mode_at(Part::Budgets, entry, "mode")?;
    let prefix = prefix_at(Part::Budgets, entry, "prefix")?;
    let row = BudgetRow { mode, cap, left };
    Ok((RowKey::Budget(prefix), RowVal::Budget(row)))
}

const MARK_KEYS: [&str; 6] = ["acquirer", "kind", "pan", "reversal", "stamp", "trace"];

/// An original whose reversal came ahead of it.
#[tactic(auto, unfolding(book_laws::specs::Entries::mark_of))]
pub(crate) fn mark_of(entry: &Value) -> Result<(RowKey, RowVal), TextFault>
    ensures value { result ≡ mark_of (view entry.now) }
    ensures kind { IfOk result (λ row. IsOfKind row.0 row.1) }
{
    if !has_keys(entry, &MARK_KEYS) {
        return Err(TextFault::Shape(Part::Ahead));
    }
    let acquirer = acquirer_at(Part::Ahead, entry, "acquirer")?;
    let kind = kind_at(Part::Ahead, entry, "kind")?;
    let card = pan_at(Part::Ahead, entry, "pan")?;
    let reversal = identity_at(Part::Ahead, entry, "reversal")?;
    let stamp = stamp_at(Part::Ahead, entry, "stamp")?;
    let stan = stan_at(Part::Ahead, entry, "trace")?;
    let identity = Identity {
        acquirer,
        stan,
        stamp,
    };
    let mark = Mark {
        card,
        kind,
        reversal,
    };
    Ok((RowKey::Original(identity), RowVal::Ahead(mark)))
}

const ACCOUNT_KEYS: [&str; 3] = ["available", "currency", "id"];

/// An account.
#[tactic(auto, unfolding(book_laws::specs::Entries::account_of))]
pub(crate) fn account_of(entry: &Value) -> Result<(RowKey, RowVal), TextFault>
    ensures value { result ≡ account_of (view entry.now) }
    ensures kind { IfOk result (λ row. IsOfKind row.0 row.1) }
{
    if !has_keys(entry, &ACCOUNT_KEYS) {
        return Err(TextFault::Shape(Part::Accounts));
    }
    let available = balance_at(Part::Accounts, entry, "available")?;
    let currency = currency_at(Part::Accounts, entry, "currency")?;
    let id = account_id_at(Part::Accounts, entry, "id")?;
    let row = AccountRow {
        available,
        currency,
    };
    Ok((RowKey::Account(id), RowVal::Account(row)))
}
