//! Originals that were decided, from their entries.

ghost use Rattle.std.specs.Prelude.{◌≡◌, IfOk};
ghost use Rattle.issuer_rows.specs.RowVal.{IsOfKind};
ghost use Rattle.serde_json.specs.View.{view};
ghost use Rattle.book_laws.specs.Fields.{has_keys};
ghost use Rattle.book_laws.specs.Originals.{original_keys, paying_account_at, original_entry_of, original_of};
ghost use Rattle.book_entries.specs.OriginalFronts.{original_from};

use crate::fields::{
    acquirer_at, action_at, amount_at, has_keys, pan_at, processing_at, stamp_at, stan_at,
};
use crate::null_fields::{optional_account_id_at, optional_approval_at, optional_identity_at};
use crate::word_fields::{kind_at, paid_at};
use book_laws::{BookVersion, OriginalEntry, Part, TextFault};
use iso8583::{AccountId, Acquirer, Action, Amount, Approval, Identity, OriginalKind};
use issuer_rows::{RowKey, RowVal};
use serde_json::Value;

const OLD_KEYS: [&str; 12] = [
    "acquirer",
    "action",
    "amount",
    "approval",
    "kind",
    "paid",
    "pan",
    "processing",
    "reversed",
    "stamp",
    "stay",
    "trace",
];

const KEYS: [&str; 13] = [
    "account",
    "acquirer",
    "action",
    "amount",
    "approval",
    "kind",
    "paid",
    "pan",
    "processing",
    "reversed",
    "stamp",
    "stay",
    "trace",
];

fn has_original_keys(version: BookVersion, entry: &Value) -> bool
    ensures { result ≡ has_keys (original_keys version) (view entry.now) }
{
    match version {
        BookVersion::One | BookVersion::Two => has_keys(entry, &OLD_KEYS),
        BookVersion::Three => has_keys(entry, &KEYS),
    }
}

fn paying_account_at(version: BookVersion, entry: &Value) -> Result<Option<AccountId>, TextFault>
    ensures { result ≡ paying_account_at version (view entry.now) }
{
    match version {
        BookVersion::One | BookVersion::Two => Ok(None),
        BookVersion::Three => optional_account_id_at(Part::Originals, entry, "account"),
    }
}

/// What stands first in the entry of an original.
#[derive(Clone, Copy)]
pub(crate) struct OriginalFront {
    /// The account that paid, if one is named.
    pub(crate) account: Option<AccountId>,
    /// The acquirer, of its identity.
    pub(crate) acquirer: Acquirer,
    /// The action that it was answered.
    pub(crate) action: Action,
    /// Its amount.
    pub(crate) amount: Amount,
    /// Its approval code, if it has one.
    pub(crate) approval: Option<Approval>,
    /// Its kind.
    pub(crate) kind: OriginalKind,
}

#[tactic(auto, unfolding(book_laws::specs::Originals::original_entry_of))]
fn original_front_of(version: BookVersion, entry: &Value) -> Result<OriginalFront, TextFault>
    ensures { original_entry_of version (view entry.now) ≡ original_from version result (view entry.now) }
{
    if !has_original_keys(version, entry) {
        return Err(TextFault::Shape(Part::Originals));
    }
    Ok(OriginalFront {
        account: paying_account_at(version, entry)?,
        acquirer: acquirer_at(Part::Originals, entry, "acquirer")?,
        action: action_at(Part::Originals, entry, "action")?,
        amount: amount_at(Part::Originals, entry, "amount")?,
        approval: optional_approval_at(Part::Originals, entry, "approval")?,
        kind: kind_at(Part::Originals, entry, "kind")?,
    })
}

/// An identity, and what is said of its original.
fn original_entry_of(
    version: BookVersion,
    entry: &Value,
) -> Result<(Identity, OriginalEntry), TextFault>
    ensures { result ≡ original_entry_of version (view entry.now) }
{
    let front = original_front_of(version, entry)?;
    let paid = paid_at(version, Part::Originals, entry, "paid")?;
    let pan = pan_at(Part::Originals, entry, "pan")?;
    let processing = processing_at(Part::Originals, entry, "processing")?;
    let reversed = optional_identity_at(Part::Originals, entry, "reversed")?;
    let stamp = stamp_at(Part::Originals, entry, "stamp")?;
    let stay = amount_at(Part::Originals, entry, "stay")?;
    let stan = stan_at(Part::Originals, entry, "trace")?;
    let identity = Identity {
        acquirer: front.acquirer,
        stan,
        stamp,
    };
    let original = OriginalEntry {
        account: front.account,
        action: front.action,
        amount: front.amount,
        approval: front.approval,
        kind: front.kind,
        paid,
        pan,
        processing,
        reversed,
        stay,
    };
    Ok((identity, original))
}

/// An original's row.
#[tactic(auto, unfolding(book_laws::specs::Originals::original_of))]
pub(crate) fn original_of(
    version: BookVersion,
    entry: &Value,
) -> Result<(RowKey, RowVal), TextFault>
    ensures value { result ≡ original_of version (view entry.now) }
    ensures kind { IfOk result (λ row. IsOfKind row.0 row.1) }
{
    let (identity, original) = original_entry_of(version, entry)?;
    let kept = original.kept().ok_or(TextFault::Range)?;
    Ok((RowKey::Original(identity), RowVal::Kept(kept)))
}
