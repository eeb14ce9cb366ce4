//! Rows from entries in the form in which they are written.

ghost use Rattle.std.specs.Prelude.{IfSome};
ghost use Rattle.issuer_rows.specs.RowVal.{IsOfKind};

use crate::originals::OriginalFront;
use crate::word_fields::{account_paid_of, kind_of, mode_of, status_of};
use crate::written_text::WrittenText;
use book_laws::{OriginalEntry, RowList};
use iso8583::{
    AccountId, Acquirer, Action, Amount, Approval, Currency, Day, Digits, Identity, LocalStamp,
    OriginalKind, Pan, PanPrefix, Processing, Stan,
};
use issuer_rows::{
    AccountRow, Balance, BudgetRow, CardAccounts, CardRow, Count, Expiry, Kept, Mark, RowKey,
    RowVal, VelocityRow,
};

fn next_balance(text: &mut WrittenText<'_>, name: &str) -> Option<Balance> {
    Balance::new(text.number(name)?)
}

fn next_amount(text: &mut WrittenText<'_>, name: &str) -> Option<Amount> {
    Amount::new(text.number(name)?)
}

fn next_count(text: &mut WrittenText<'_>, name: &str) -> Option<Count> {
    Count::new(u32::try_from(text.number(name)?).ok()?)
}

fn next_pan(text: &mut WrittenText<'_>) -> Option<Pan> {
    Pan::new(text.text("pan")?.as_bytes())
}

fn next_kind(text: &mut WrittenText<'_>) -> Option<OriginalKind> {
    kind_of(text.text("kind")?)
}

fn next_acquirer(text: &mut WrittenText<'_>) -> Option<Acquirer> {
    Acquirer::new(text.text("acquirer")?.as_bytes())
}

fn next_stamp(text: &mut WrittenText<'_>) -> Option<LocalStamp> {
    LocalStamp::new(text.text("stamp")?.as_bytes())
}

fn next_stan(text: &mut WrittenText<'_>) -> Option<Stan> {
    Stan::new(text.text("trace")?.as_bytes())
}

// Null, or the name of an account.
fn next_optional_account_id(text: &mut WrittenText<'_>, name: &str) -> Option<Option<AccountId>> {
    match text.text_or_null(name)? {
        Some(id) => Some(Some(AccountId::new(id.as_bytes())?)),
        None => Some(None),
    }
}

fn next_account(text: &mut WrittenText<'_>) -> Option<(RowKey, RowVal)>
    ensures { IfSome result (λ row. IsOfKind row.0 row.1) }
{
    let available = next_balance(text, "available")?;
    let currency = Currency::new(text.text("currency")?.as_bytes())?;
    let id = AccountId::new(text.text("id")?.as_bytes())?;
    let row = AccountRow {
        available,
        currency,
    };
    Some((RowKey::Account(id), RowVal::Account(row)))
}

fn next_budget(text: &mut WrittenText<'_>) -> Option<(RowKey, RowVal)>
    ensures { IfSome result (λ row. IsOfKind row.0 row.1) }
{
    let cap = next_balance(text, "cap")?;
    let left = next_balance(text, "left")?;
    let mode = mode_of(text.text("mode")?)?;
    let prefix = PanPrefix::new(text.text("prefix")?.as_bytes())?;
    let row = BudgetRow { mode, cap, left };
    Some((RowKey::Budget(prefix), RowVal::Budget(row)))
}

fn next_card(text: &mut WrittenText<'_>) -> Option<(RowKey, RowVal)>
    ensures { IfSome result (λ row. IsOfKind row.0 row.1) }
{
    let first = AccountId::new(text.text("account")?.as_bytes())?;
    let approvals = next_count(text, "approvals")?;
    let day_amount = next_balance(text, "day_amount")?;
    let day_count = next_count(text, "day_count")?;
    let expiry = Expiry::new(text.text("expiry")?.as_bytes())?;
    let pan = next_pan(text)?;
    let second = next_optional_account_id(text, "second")?;
    let status = status_of(text.text("status")?)?;
    let row = CardRow {
        expiry,
        status,
        approvals,
        day_count,
        day_amount,
        accounts: CardAccounts::new(first, second),
    };
    Some((RowKey::Card(pan), RowVal::Card(row)))
}

fn next_day(text: &mut WrittenText<'_>) -> Option<(RowKey, RowVal)>
    ensures { IfSome result (λ row. IsOfKind row.0 row.1) }
{
    let count = next_count(text, "count")?;
    let day = Day::new(text.text("day")?.as_bytes())?;
    let pan = next_pan(text)?;
    let sum = next_balance(text, "sum")?;
    Some((
        RowKey::Velocity(pan, day),
        RowVal::Velocity(VelocityRow { count, sum }),
    ))
}

fn next_identity(text: &mut WrittenText<'_>) -> Option<Identity> {
    let acquirer = next_acquirer(text)?;
    let stamp = next_stamp(text)?;
    let stan = next_stan(text)?;
    text.end_object()?;
    Some(Identity {
        acquirer,
        stan,
        stamp,
    })
}

// The identity of a reversal, or null.
fn next_optional_identity(text: &mut WrittenText<'_>, name: &str) -> Option<Option<Identity>> {
    if text.has_object(name)? {
        return Some(Some(next_identity(text)?));
    }
    Some(None)
}

fn next_approval(text: &mut WrittenText<'_>) -> Option<Option<Approval>> {
    match text.text_or_null("approval")? {
        Some(code) => Some(Some(Approval::new(code.as_bytes())?)),
        None => Some(None),
    }
}

fn next_action(text: &mut WrittenText<'_>) -> Option<Action> {
    let digits = Digits::new(text.text("action")?.as_bytes())?;
    Some(Action::from_digits(&digits))
}

fn next_original_front(text: &mut WrittenText<'_>) -> Option<OriginalFront> {
    Some(OriginalFront {
        account: next_optional_account_id(text, "account")?,
        acquirer: next_acquirer(text)?,
        action: next_action(text)?,
        amount: next_amount(text, "amount")?,
        approval: next_approval(text)?,
        kind: next_kind(text)?,
    })
}

// What stands last in the entry of an original.
#[derive(Clone, Copy)]
struct OriginalEnd {
    reversed: Option<Identity>,
    stamp: LocalStamp,
    stay: Amount,
    stan: Stan,
}

fn next_original_end(text: &mut WrittenText<'_>) -> Option<OriginalEnd> {
    Some(OriginalEnd {
        reversed: next_optional_identity(text, "reversed")?,
        stamp: next_stamp(text)?,
        stay: next_amount(text, "stay")?,
        stan: next_stan(text)?,
    })
}

fn next_original(text: &mut WrittenText<'_>) -> Option<(RowKey, RowVal)>
    ensures { IfSome result (λ row. IsOfKind row.0 row.1) }
{
    let front = next_original_front(text)?;
    let paid = account_paid_of(text.text("paid")?)?;
    let pan = next_pan(text)?;
    let processing = Processing::new(text.text("processing")?.as_bytes())?;
    let end = next_original_end(text)?;
    let entry = OriginalEntry {
        account: front.account,
        action: front.action,
        amount: front.amount,
        approval: front.approval,
        kind: front.kind,
        paid,
        pan,
        processing,
        reversed: end.reversed,
        stay: end.stay,
    };
    let identity = Identity {
        acquirer: front.acquirer,
        stan: end.stan,
        stamp: end.stamp,
    };
    Some((RowKey::Original(identity), RowVal::Kept(entry.kept()?)))
}

fn next_mark(text: &mut WrittenText<'_>) -> Option<(RowKey, RowVal)>
    ensures { IfSome result (λ row. IsOfKind row.0 row.1) }
{
    let acquirer = next_acquirer(text)?;
    let kind = next_kind(text)?;
    let card = next_pan(text)?;
    let reversal = next_optional_identity(text, "reversal")??;
    let stamp = next_stamp(text)?;
    let stan = next_stan(text)?;
    let identity = Identity {
        acquirer,
        stan,
        stamp,
    };
    let mark = Mark {
        card,
        kind,
        reversal,
    };
    Some((RowKey::Original(identity), RowVal::Ahead(mark)))
}

/// The row that an entry of the list is, whose object has begun.
pub fn row_of(text: &mut WrittenText<'_>, list: RowList) -> Option<(RowKey, RowVal)>
    ensures { IfSome result (λ row. IsOfKind row.0 row.1) }
{
    let row = match list {
        RowList::Cards => next_card(text),
        RowList::Days => next_day(text),
        RowList::Budgets => next_budget(text),
        RowList::Originals => next_original(text),
        RowList::Ahead => next_mark(text),
        RowList::Accounts => next_account(text),
    }?;
    text.end_object()?;
    Some(row)
}
