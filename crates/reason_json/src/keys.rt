//! What finds a row.

ghost use Rattle.std.specs.Prelude.{◌∷◌, ◌++◌, [], true, OnOk};
ghost use Rattle.json.specs.Token.{end_object as end_object_token, key as key_token, boolean as boolean_token};
ghost use Rattle.std.specs.Prelude.{codes};
ghost use Rattle.book_laws.specs.Text.{Adds, tokens_of};
ghost use Rattle.message_text.specs.Lines.{all_tokens};
ghost use Rattle.reason_json.specs.Rows.{absent_data, key_members};

use crate::numbers::{account_field, pan_field};
use crate::rows::{begin_row, kind_name};
use book_text::{
    JsonWriter, Member, acquirer_field, day_field, prefix_field, stamp_field, stan_field,
};
use iso_shown::CardNumbers;
use issuer_rows::RowKey;
use std::alloc::{AllocError, Global};

// Writes what finds a row.
fn put_key(
    out: &mut JsonWriter,
    alloc: Global,
    cards: CardNumbers,
    key: &RowKey,
) -> Result<(), AllocError>
    ensures { OnOk result (Adds out.old out.new (all_tokens (key_members cards key.now))) }
{
    match key {
        RowKey::Card(pan) => pan_field(out, alloc, cards, *pan),
        RowKey::Velocity(pan, day) => {
            pan_field(out, alloc, cards, *pan)?;
            day_field(out, Member::Day, *day)
        }
        RowKey::Budget(prefix) => prefix_field(out, Member::Prefix, *prefix),
        RowKey::Original(identity) => {
            acquirer_field(out, Member::Acquirer, identity.acquirer)?;
            stamp_field(out, Member::Stamp, identity.stamp)?;
            stan_field(out, Member::Trace, identity.stan)
        }
        RowKey::Account(id) => account_field(out, alloc, cards, "id", *id),
    }
}

// Writes that a row is absent.
fn put_absence(out: &mut JsonWriter) -> Result<(), AllocError>
    ensures { OnOk result (Adds out.old out.new (key_token (codes "absent") ∷ boolean_token true ∷ [])) }
{
    out.key("absent")?;
    out.put_true()
}

/// Writes a row that isn't there. It fails only where memory runs out.
pub(crate) fn put_absent(
    out: &mut JsonWriter,
    alloc: Global,
    cards: CardNumbers,
    key: &RowKey,
) -> Result<(), AllocError>
    ensures { OnOk result (Adds out.old out.new (tokens_of (absent_data cards key.now))) }
{
    begin_row(out, kind_name(key))?;
    put_key(out, alloc, cards, key)?;
    put_absence(out)?;
    out.end_object()
}
