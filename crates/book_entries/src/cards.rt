//! Cards from their entries.

ghost use Rattle.std.specs.Prelude.{◌≡◌};
ghost use Rattle.serde_json.specs.View.{view};
ghost use Rattle.book_laws.specs.Cards.{card_of, old_card_of};

use crate::fields::{balance_at, count_at, currency_at, expiry_at, has_keys, pan_at};
use crate::null_fields::{account_id_at, optional_account_id_at};
use crate::word_fields::status_at;
use book_laws::{OldCard, Part, TextFault};
use iso8583::Pan;
use issuer_rows::{CardAccounts, CardRow};
use serde_json::Value;

const CARD_KEYS: [&str; 8] = [
    "account",
    "approvals",
    "day_amount",
    "day_count",
    "expiry",
    "pan",
    "second",
    "status",
];

/// A card and its number.
#[tactic(auto, unfolding(book_laws::specs::Cards::card_of))]
pub(crate) fn card_of(entry: &Value) -> Result<(Pan, CardRow), TextFault>
    ensures { result ≡ card_of (view entry.now) }
{
    if !has_keys(entry, &CARD_KEYS) {
        return Err(TextFault::Shape(Part::Cards));
    }
    let account = account_id_at(Part::Cards, entry, "account")?;
    let approvals = count_at(Part::Cards, entry, "approvals")?;
    let day_amount = balance_at(Part::Cards, entry, "day_amount")?;
    let day_count = count_at(Part::Cards, entry, "day_count")?;
    let expiry = expiry_at(Part::Cards, entry, "expiry")?;
    let pan = pan_at(Part::Cards, entry, "pan")?;
    let second = optional_account_id_at(Part::Cards, entry, "second")?;
    let status = status_at(Part::Cards, entry, "status")?;
    let accounts = CardAccounts::new(account, second);
    Ok((
        pan,
        CardRow {
            expiry,
            status,
            approvals,
            day_count,
            day_amount,
            accounts,
        },
    ))
}

const OLD_CARD_KEYS: [&str; 8] = [
    "approvals",
    "available",
    "currency",
    "day_amount",
    "day_count",
    "expiry",
    "pan",
    "status",
];

/// A card of versions 1 and 2.
#[tactic(auto, unfolding(book_laws::specs::Cards::old_card_of))]
pub fn old_card_of(entry: &Value) -> Result<OldCard, TextFault>
    ensures { result ≡ old_card_of (view entry.now) }
{
    if !has_keys(entry, &OLD_CARD_KEYS) {
        return Err(TextFault::Shape(Part::Cards));
    }
    let approvals = count_at(Part::Cards, entry, "approvals")?;
    let available = balance_at(Part::Cards, entry, "available")?;
    let currency = currency_at(Part::Cards, entry, "currency")?;
    let day_amount = balance_at(Part::Cards, entry, "day_amount")?;
    let day_count = count_at(Part::Cards, entry, "day_count")?;
    let expiry = expiry_at(Part::Cards, entry, "expiry")?;
    let pan = pan_at(Part::Cards, entry, "pan")?;
    let status = status_at(Part::Cards, entry, "status")?;
    Ok(OldCard {
        pan,
        available,
        currency,
        expiry,
        status,
        approvals,
        day_count,
        day_amount,
    })
}
