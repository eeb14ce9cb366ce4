//! Entries of rows, as they are written. What is written of a row is read again as the row.

ghost use Rattle.std.specs.Prelude.{◌∷◌, [], OnOk, IfSome, codes};
ghost use Rattle.json.specs.Token.{key as key_token, string as string_token};
ghost use Rattle.issuer_rows.specs.declared.row_key.RowKey.TheVariants as key;
ghost use Rattle.issuer_rows.specs.declared.row_val.RowVal.TheVariants as val;
ghost use Rattle.issuer_rows.specs.RowVal.{IsOfKind};
ghost use Rattle.book_laws.specs.Originals.{entry_of_kept};
ghost use Rattle.book_laws.specs.Parts.{list_of};
ghost use Rattle.book_laws.specs.Ranges.{IsAccountId, IsOriginalEntry};
ghost use Rattle.book_laws.specs.Text.{Adds, tokens_of, optional_data, account_id_data, card_data, day_data, budget_data, original_data, mark_data, account_data, entry_data};
ghost use Rattle.book_laws.specs.declared.row_list.RowList.TheVariants.{Cards, Days, Budgets, Originals, Ahead, Accounts};

use crate::field_writers::{
    account_id_field, acquirer_field, action_field, amount_field, balance_field, count_field,
    currency_field, day_field, expiry_field, identity_field, kind_field, mode_field,
    optional_account_id_field, optional_approval_field, optional_identity_field, paid_field,
    pan_field, prefix_field, processing_field, stamp_field, stan_field, status_field,
};
use crate::json_writer::JsonWriter;
use crate::member::Member;
use book_laws::OriginalEntry;
use iso8583::{AccountId, Day, Identity, Pan, PanPrefix};
use issuer_rows::{
    AccountRow, BudgetRow, CardAccounts, CardRow, Kept, Mark, RowKey, RowVal, VelocityRow,
};
use std::alloc::AllocError;

// The account that pays where a message names none.
fn first_account_field(out: &mut JsonWriter, accounts: CardAccounts) -> Result<(), AllocError>
    ensures { OnOk result (Adds out.old out.new (key_token (codes "account") ∷ string_token accounts.first.0 ∷ [])) }
{
    account_id_field(out, Member::Account, accounts.first())
}

// The other account, if there is one.
fn second_account_field(out: &mut JsonWriter, accounts: CardAccounts) -> Result<(), AllocError>
    ensures { OnOk result (Adds out.old out.new (key_token (codes "second") ∷ tokens_of (optional_data account_id_data accounts.second))) }
{
    optional_account_id_field(out, Member::Second, accounts.second())
}

fn write_card(out: &mut JsonWriter, pan: Pan, card: &CardRow) -> Result<(), AllocError>
    ensures { OnOk result (Adds out.old out.new (tokens_of (card_data pan card.now))) }
{
    out.begin_object()?;
    first_account_field(out, card.accounts)?;
    count_field(out, Member::Approvals, card.approvals)?;
    balance_field(out, Member::DayAmount, card.day_amount)?;
    count_field(out, Member::DayCount, card.day_count)?;
    expiry_field(out, Member::Expiry, card.expiry)?;
    pan_field(out, Member::Pan, pan)?;
    second_account_field(out, card.accounts)?;
    status_field(out, Member::Status, card.status)?;
    out.end_object()?;
    Ok(())
}

fn write_day(out: &mut JsonWriter, pan: Pan, day: Day, row: &VelocityRow) -> Result<(), AllocError>
    ensures { OnOk result (Adds out.old out.new (tokens_of (day_data pan day row.now))) }
{
    out.begin_object()?;
    count_field(out, Member::Count, row.count)?;
    day_field(out, Member::Day, day)?;
    pan_field(out, Member::Pan, pan)?;
    balance_field(out, Member::Sum, row.sum)?;
    out.end_object()?;
    Ok(())
}

fn write_budget(out: &mut JsonWriter, prefix: PanPrefix, row: &BudgetRow) -> Result<(), AllocError>
    ensures { OnOk result (Adds out.old out.new (tokens_of (budget_data prefix row.now))) }
{
    out.begin_object()?;
    balance_field(out, Member::Cap, row.cap)?;
    balance_field(out, Member::Left, row.left)?;
    mode_field(out, Member::Mode, row.mode)?;
    prefix_field(out, Member::Prefix, prefix)?;
    out.end_object()?;
    Ok(())
}

fn write_original(
    out: &mut JsonWriter,
    identity: Identity,
    original: &OriginalEntry,
) -> Result<(), AllocError>
    ensures { OnOk result (Adds out.old out.new (tokens_of (original_data identity original.now))) }
{
    out.begin_object()?;
    optional_account_id_field(out, Member::Account, original.account)?;
    acquirer_field(out, Member::Acquirer, identity.acquirer)?;
    action_field(out, Member::Action, original.action)?;
    amount_field(out, Member::Amount, original.amount)?;
    optional_approval_field(out, Member::Approval, original.approval)?;
    kind_field(out, Member::Kind, original.kind)?;
    paid_field(out, Member::Paid, original.paid)?;
    pan_field(out, Member::Pan, original.pan)?;
    processing_field(out, Member::Processing, original.processing)?;
    optional_identity_field(out, Member::Reversed, original.reversed)?;
    stamp_field(out, Member::Stamp, identity.stamp)?;
    amount_field(out, Member::Stay, original.stay)?;
    stan_field(out, Member::Trace, identity.stan)?;
    out.end_object()?;
    Ok(())
}

fn write_kept(out: &mut JsonWriter, identity: Identity, kept: &Kept) -> Result<(), AllocError>
    ensures { OnOk result (Adds out.old out.new (tokens_of (original_data identity (entry_of_kept kept.now)))) }
{
    let original = OriginalEntry::of(kept);
    write_original(out, identity, &original)?;
    Ok(())
}

fn write_mark(out: &mut JsonWriter, identity: Identity, mark: &Mark) -> Result<(), AllocError>
    ensures { OnOk result (Adds out.old out.new (tokens_of (mark_data identity mark.now))) }
{
    out.begin_object()?;
    acquirer_field(out, Member::Acquirer, identity.acquirer)?;
    kind_field(out, Member::Kind, mark.kind)?;
    pan_field(out, Member::Pan, mark.card)?;
    identity_field(out, Member::Reversal, mark.reversal)?;
    stamp_field(out, Member::Stamp, identity.stamp)?;
    stan_field(out, Member::Trace, identity.stan)?;
    out.end_object()?;
    Ok(())
}

fn write_account(out: &mut JsonWriter, id: AccountId, row: &AccountRow) -> Result<(), AllocError>
    ensures { OnOk result (Adds out.old out.new (tokens_of (account_data id row.now))) }
{
    out.begin_object()?;
    balance_field(out, Member::Available, row.available)?;
    currency_field(out, Member::Currency, row.currency)?;
    account_id_field(out, Member::Id, id)?;
    out.end_object()?;
    Ok(())
}

/// Writes the entry of a row. It fails only where memory runs out.
pub fn write_entry(out: &mut JsonWriter, key: &RowKey, val: &RowVal) -> Result<(), AllocError>
    requires { IsOfKind key.now val.now }
    ensures { OnOk result (Adds out.old out.new (tokens_of (entry_data key.now val.now))) }
{
    match (key, val) {
        (RowKey::Card(pan), RowVal::Card(card)) => write_card(out, *pan, card),
        (RowKey::Velocity(pan, day), RowVal::Velocity(row)) => write_day(out, *pan, *day, row),
        (RowKey::Budget(prefix), RowVal::Budget(row)) => write_budget(out, *prefix, row),
        (RowKey::Original(identity), RowVal::Kept(kept)) => write_kept(out, *identity, kept),
        (RowKey::Original(identity), RowVal::Ahead(mark)) => write_mark(out, *identity, mark),
        (RowKey::Account(id), RowVal::Account(row)) => write_account(out, *id, row),
        _ => unreachable!(),
    }
}
