//! Rows, as they are written.

ghost use Rattle.std.specs.Prelude.{◌≡◌, ◌∷◌, [], OnOk, codes};
ghost use Rattle.iso_shown.specs.Shown.{shown_account};
ghost use Rattle.json.specs.Token.{begin_object, end_object as end_object_token, key as key_token, string as string_token};
ghost use Rattle.issuer_rows.specs.declared.row_key.RowKey.TheVariants as key;
ghost use Rattle.issuer_rows.specs.declared.row_val.RowVal.TheVariants as val;
ghost use Rattle.book_laws.specs.Text.{Adds, account_id_data, optional_data, original_data, tokens_of};
ghost use Rattle.reason_json.specs.Rows.{entry_shown, kind_name, row_data, shown_value};
ghost use Rattle.reason_json.specs.RowTokens.{answer_tokens, limit_tokens, payment_tokens};

use crate::numbers::{account_field, optional_account_field, pan_field};
use book_laws::OriginalEntry;
use book_text::{
    JsonWriter, Member, acquirer_field, action_field, amount_field, balance_field, count_field,
    currency_field, day_field, expiry_field, identity_field, kind_field, mode_field,
    optional_approval_field, optional_identity_field, paid_field, prefix_field, processing_field,
    stamp_field, stan_field, status_field,
};
use iso_shown::CardNumbers;
use iso8583::{AccountId, Day, Identity, Pan, PanPrefix};
use issuer_rows::{
    AccountRow, BudgetRow, CardAccounts, CardRow, Kept, Mark, RowKey, RowVal, VelocityRow,
};
use std::alloc::{AllocError, Global};

/// What a row is of.
pub(crate) fn kind_name(key: &RowKey) -> &'static str
    ensures { result.now ≡ kind_name key.now }
{
    match key {
        RowKey::Card(_) => "card",
        RowKey::Velocity(_, _) => "day",
        RowKey::Budget(_) => "budget",
        RowKey::Original(_) => "original",
        RowKey::Account(_) => "account",
    }
}

/// Writes the opening brace of a row, and what it is of. It fails only where memory runs out.
pub(crate) fn begin_row(out: &mut JsonWriter, kind: &str) -> Result<(), AllocError>
    ensures { OnOk result (Adds out.old out.new (begin_object ∷ key_token (codes "row") ∷ string_token kind.now ∷ [])) }
{
    out.begin_object()?;
    out.text_field("row", kind)
}

// Writes the account that pays where a message names none.
fn first_account_field(
    out: &mut JsonWriter,
    alloc: Global,
    cards: CardNumbers,
    accounts: CardAccounts,
) -> Result<(), AllocError>
    ensures { OnOk result (Adds out.old out.new (key_token (codes "account") ∷ string_token (shown_account cards accounts.first.0) ∷ [])) }
{
    account_field(out, alloc, cards, "account", accounts.first())
}

// Writes the other account, if there is one.
fn second_account_field(
    out: &mut JsonWriter,
    alloc: Global,
    cards: CardNumbers,
    accounts: CardAccounts,
) -> Result<(), AllocError>
    ensures { OnOk result (Adds out.old out.new (key_token (codes "second")
        ∷ tokens_of (shown_value cards (codes "second") (optional_data account_id_data accounts.second)))) }
{
    optional_account_field(out, alloc, cards, "second", accounts.second())
}

// Writes how often, for how much and until when a card pays.
fn put_limits(out: &mut JsonWriter, card: &CardRow) -> Result<(), AllocError>
    ensures { OnOk result (Adds out.old out.new (limit_tokens card.now)) }
{
    count_field(out, Member::Approvals, card.approvals)?;
    balance_field(out, Member::DayAmount, card.day_amount)?;
    count_field(out, Member::DayCount, card.day_count)?;
    expiry_field(out, Member::Expiry, card.expiry)?;
    Ok(())
}

// Writes a card.
fn put_card(
    out: &mut JsonWriter,
    alloc: Global,
    cards: CardNumbers,
    pan: Pan,
    card: &CardRow,
) -> Result<(), AllocError>
    ensures { OnOk result (Adds out.old out.new (tokens_of (row_data cards (key.Card pan) (val.Card card.now)))) }
{
    begin_row(out, "card")?;
    first_account_field(out, alloc, cards, card.accounts)?;
    put_limits(out, card)?;
    pan_field(out, alloc, cards, pan)?;
    second_account_field(out, alloc, cards, card.accounts)?;
    status_field(out, Member::Status, card.status)?;
    out.end_object()?;
    Ok(())
}

// Writes what was spent with a card on a day.
fn put_day(
    out: &mut JsonWriter,
    alloc: Global,
    cards: CardNumbers,
    pan: Pan,
    day: Day,
    row: &VelocityRow,
) -> Result<(), AllocError>
    ensures { OnOk result (Adds out.old out.new (tokens_of (row_data cards (key.Velocity pan day) (val.Velocity row.now)))) }
{
    begin_row(out, "day")?;
    count_field(out, Member::Count, row.count)?;
    day_field(out, Member::Day, day)?;
    pan_field(out, alloc, cards, pan)?;
    balance_field(out, Member::Sum, row.sum)?;
    out.end_object()?;
    Ok(())
}

// Writes a stand-in budget.
fn put_budget(
    out: &mut JsonWriter,
    cards: CardNumbers,
    prefix: PanPrefix,
    row: &BudgetRow,
) -> Result<(), AllocError>
    ensures { OnOk result (Adds out.old out.new (tokens_of (row_data cards (key.Budget prefix) (val.Budget row.now)))) }
{
    begin_row(out, "budget")?;
    balance_field(out, Member::Cap, row.cap)?;
    balance_field(out, Member::Left, row.left)?;
    mode_field(out, Member::Mode, row.mode)?;
    prefix_field(out, Member::Prefix, prefix)?;
    out.end_object()?;
    Ok(())
}

// Writes how an original was answered, and for which amount.
fn put_answer(out: &mut JsonWriter, original: &OriginalEntry) -> Result<(), AllocError>
    ensures { OnOk result (Adds out.old out.new (answer_tokens original.now)) }
{
    action_field(out, Member::Action, original.action)?;
    amount_field(out, Member::Amount, original.amount)?;
    optional_approval_field(out, Member::Approval, original.approval)?;
    Ok(())
}

// Writes what paid an original, with which card, and by what it is reversed.
fn put_payment(
    out: &mut JsonWriter,
    alloc: Global,
    cards: CardNumbers,
    original: &OriginalEntry,
) -> Result<(), AllocError>
    ensures { OnOk result (Adds out.old out.new (payment_tokens cards original.now)) }
{
    kind_field(out, Member::Kind, original.kind)?;
    paid_field(out, Member::Paid, original.paid)?;
    pan_field(out, alloc, cards, original.pan)?;
    processing_field(out, Member::Processing, original.processing)?;
    optional_identity_field(out, Member::Reversed, original.reversed)?;
    Ok(())
}

// Writes what a book's text says of an original that was decided.
fn put_original(
    out: &mut JsonWriter,
    alloc: Global,
    cards: CardNumbers,
    identity: Identity,
    original: &OriginalEntry,
) -> Result<(), AllocError>
    ensures { OnOk result (Adds out.old out.new (tokens_of (entry_shown cards (key.Original identity) (original_data identity original.now)))) }
{
    begin_row(out, "original")?;
    optional_account_field(out, alloc, cards, "account", original.account)?;
    acquirer_field(out, Member::Acquirer, identity.acquirer)?;
    put_answer(out, original)?;
    put_payment(out, alloc, cards, original)?;
    stamp_field(out, Member::Stamp, identity.stamp)?;
    amount_field(out, Member::Stay, original.stay)?;
    stan_field(out, Member::Trace, identity.stan)?;
    out.end_object()?;
    Ok(())
}

// Writes an original that was decided.
fn put_kept(
    out: &mut JsonWriter,
    alloc: Global,
    cards: CardNumbers,
    identity: Identity,
    kept: &Kept,
) -> Result<(), AllocError>
    ensures { OnOk result (Adds out.old out.new (tokens_of (row_data cards (key.Original identity) (val.Kept kept.now)))) }
{
    let original = OriginalEntry::of(kept);
    put_original(out, alloc, cards, identity, &original)?;
    Ok(())
}

// Writes an original whose reversal came ahead of it.
fn put_mark(
    out: &mut JsonWriter,
    alloc: Global,
    cards: CardNumbers,
    identity: Identity,
    mark: &Mark,
) -> Result<(), AllocError>
    ensures { OnOk result (Adds out.old out.new (tokens_of (row_data cards (key.Original identity) (val.Ahead mark.now)))) }
{
    begin_row(out, "original")?;
    acquirer_field(out, Member::Acquirer, identity.acquirer)?;
    kind_field(out, Member::Kind, mark.kind)?;
    pan_field(out, alloc, cards, mark.card)?;
    identity_field(out, Member::Reversal, mark.reversal)?;
    stamp_field(out, Member::Stamp, identity.stamp)?;
    stan_field(out, Member::Trace, identity.stan)?;
    out.end_object()?;
    Ok(())
}

// Writes an account.
fn put_account(
    out: &mut JsonWriter,
    alloc: Global,
    cards: CardNumbers,
    id: AccountId,
    row: &AccountRow,
) -> Result<(), AllocError>
    ensures { OnOk result (Adds out.old out.new (tokens_of (row_data cards (key.Account id) (val.Account row.now)))) }
{
    begin_row(out, "account")?;
    balance_field(out, Member::Available, row.available)?;
    currency_field(out, Member::Currency, row.currency)?;
    account_field(out, alloc, cards, "id", id)?;
    out.end_object()?;
    Ok(())
}

// Writes a row whose value isn't of its key's kind, which no book has.
fn put_other(out: &mut JsonWriter, key: &RowKey) -> Result<(), AllocError>
    ensures { OnOk result (Adds out.old out.new (begin_object ∷ key_token (codes "row") ∷ string_token (kind_name key.now) ∷ end_object_token ∷ [])) }
{
    begin_row(out, kind_name(key))?;
    out.end_object()
}

/// Writes a row. It fails only where memory runs out.
pub(crate) fn put_row(
    out: &mut JsonWriter,
    alloc: Global,
    cards: CardNumbers,
    key: &RowKey,
    row: &RowVal,
) -> Result<(), AllocError>
    ensures { OnOk result (Adds out.old out.new (tokens_of (row_data cards key.now row.now))) }
{
    match (key, row) {
        (RowKey::Card(pan), RowVal::Card(card)) => put_card(out, alloc, cards, *pan, card),
        (RowKey::Velocity(pan, day), RowVal::Velocity(row)) => {
            put_day(out, alloc, cards, *pan, *day, row)
        }
        (RowKey::Budget(prefix), RowVal::Budget(row)) => put_budget(out, cards, *prefix, row),
        (RowKey::Original(identity), RowVal::Kept(kept)) => {
            put_kept(out, alloc, cards, *identity, kept)
        }
        (RowKey::Original(identity), RowVal::Ahead(mark)) => {
            put_mark(out, alloc, cards, *identity, mark)
        }
        (RowKey::Account(id), RowVal::Account(row)) => put_account(out, alloc, cards, *id, row),
        _ => put_other(out, key),
    }
}
