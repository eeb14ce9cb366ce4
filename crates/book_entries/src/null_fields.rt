//! Fields that may be null, and their kinds where they may not.

ghost use Rattle.std.specs.Prelude.{◌≡◌};
ghost use Rattle.serde_json.specs.View.{view};
ghost use Rattle.book_laws.specs.Fields.{value_at, account_id_of, account_id_at, optional_account_id_at, approval_of, optional_approval_at, identity_of, identity_at, optional_identity_at};
ghost use Rattle.book_laws.specs.Steps.{Gives};

use crate::fields::{acquirer_at, has_keys, stamp_at, stan_at};
use book_laws::{Part, TextFault};
use iso8583::{AccountId, Approval, Identity};
use serde_json::Value;

fn account_id_of(part: Part, value: &Value) -> Result<AccountId, TextFault>
    ensures { result ≡ account_id_of part (view value.now) }
{
    let text = value.as_str().ok_or(TextFault::Shape(part))?;
    AccountId::new(text.as_bytes()).ok_or(TextFault::Range)
}

/// The name of an account.
pub(crate) fn account_id_at(part: Part, entry: &Value, key: &str) -> Result<AccountId, TextFault>
    ensures { result ≡ account_id_at part key.now (view entry.now) }
{
    let value = entry.get(key).ok_or(TextFault::Shape(part))?;
    account_id_of(part, value)
}

/// Null, or the name of an account.
pub(crate) fn optional_account_id_at(
    part: Part,
    entry: &Value,
    key: &str,
) -> Result<Option<AccountId>, TextFault>
    ensures { result ≡ optional_account_id_at part key.now (view entry.now) }
{
    let value = entry.get(key).ok_or(TextFault::Shape(part))?;
    if value.is_null() {
        return Ok(None);
    }
    Ok(Some(account_id_of(part, value)?))
}

fn approval_of(part: Part, value: &Value) -> Result<Approval, TextFault>
    ensures { result ≡ approval_of part (view value.now) }
{
    let text = value.as_str().ok_or(TextFault::Shape(part))?;
    Approval::new(text.as_bytes()).ok_or(TextFault::Range)
}

/// Null, or an approval code.
pub(crate) fn optional_approval_at(
    part: Part,
    entry: &Value,
    key: &str,
) -> Result<Option<Approval>, TextFault>
    ensures { result ≡ optional_approval_at part key.now (view entry.now) }
{
    let value = entry.get(key).ok_or(TextFault::Shape(part))?;
    if value.is_null() {
        return Ok(None);
    }
    Ok(Some(approval_of(part, value)?))
}

const IDENTITY_KEYS: [&str; 3] = ["acquirer", "stamp", "trace"];

#[tactic(auto, unfolding(book_laws::specs::Fields::identity_of))]
fn identity_of(part: Part, value: &Value) -> Result<Identity, TextFault>
    ensures { result ≡ identity_of part (view value.now) }
{
    if !has_keys(value, &IDENTITY_KEYS) {
        return Err(TextFault::Shape(part));
    }
    let acquirer = acquirer_at(part, value, "acquirer")?;
    let stamp = stamp_at(part, value, "stamp")?;
    let stan = stan_at(part, value, "trace")?;
    Ok(Identity {
        acquirer,
        stan,
        stamp,
    })
}

/// The identity of a reversal.
pub(crate) fn identity_at(part: Part, entry: &Value, key: &str) -> Result<Identity, TextFault>
    ensures { result ≡ identity_at part key.now (view entry.now) }
{
    let value = entry.get(key).ok_or(TextFault::Shape(part))?;
    identity_of(part, value)
}

/// Null, or the identity of a reversal.
pub(crate) fn optional_identity_at(
    part: Part,
    entry: &Value,
    key: &str,
) -> Result<Option<Identity>, TextFault>
    ensures { result ≡ optional_identity_at part key.now (view entry.now) }
{
    let value = entry.get(key).ok_or(TextFault::Shape(part))?;
    if value.is_null() {
        return Ok(None);
    }
    Ok(Some(identity_of(part, value)?))
}
