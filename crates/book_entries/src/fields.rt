//! Fields of an entry, by kind.

ghost use Rattle.std.specs.Prelude.{◌≡◌, map};
ghost use Rattle.serde_json.specs.View.{view};
ghost use Rattle.book_laws.specs.Fields.{has_keys, number_at, text_at, balance_at, amount_at, count_at, currency_at, expiry_at, pan_at, prefix_at, day_at, action_at, processing_at, acquirer_at, stan_at, stamp_at};
ghost use Rattle.book_laws.specs.Steps.{Gives};

use book_laws::{Part, TextFault};
use iso8583::{
    Acquirer, Action, Amount, Currency, Day, Digits, LocalStamp, Pan, PanPrefix, Processing, Stan,
};
use issuer_rows::{Balance, Count, Expiry};
use serde_json::Value;

/// Whether the value is an object with exactly these keys, which stand in byte order.
pub fn has_keys(entry: &Value, keys: &[&str]) -> bool
    ensures { result ≡ has_keys (map (λ key. key.now) keys.now) (view entry.now) }
{
    let Some(members) = entry.as_object() else {
        return false;
    };
    let mut rest = keys;
    for (name, _) in members.iter() {
        match rest {
            [key, others @ ..] if name.as_str() == *key => rest = others,
            _ => return false,
        }
    }
    rest.is_empty()
}

/// The whole number at this key of an object, from 0 to 2^64 - 1. Any other value, or none, is `Shape`.
pub fn number_at(part: Part, entry: &Value, key: &str) -> Result<u64, TextFault>
    ensures { result ≡ number_at part key.now (view entry.now) }
{
    entry
        .get(key)
        .and_then(Value::as_u64)
        .ok_or(TextFault::Shape(part))
}

/// A text.
pub(crate) fn text_at<'a>(part: Part, entry: &'a Value, key: &str) -> Result<&'a str, TextFault>
    ensures { Gives (λ text. text.now) result (text_at part key.now (view entry.now)) }
{
    entry
        .get(key)
        .and_then(Value::as_str)
        .ok_or(TextFault::Shape(part))
}

/// Money in a row.
pub(crate) fn balance_at(part: Part, entry: &Value, key: &str) -> Result<Balance, TextFault>
    ensures { result ≡ balance_at part key.now (view entry.now) }
{
    Balance::new(number_at(part, entry, key)?).ok_or(TextFault::Range)
}

/// An amount.
pub(crate) fn amount_at(part: Part, entry: &Value, key: &str) -> Result<Amount, TextFault>
    ensures { result ≡ amount_at part key.now (view entry.now) }
{
    Amount::new(number_at(part, entry, key)?).ok_or(TextFault::Range)
}

/// A number of approvals.
pub(crate) fn count_at(part: Part, entry: &Value, key: &str) -> Result<Count, TextFault>
    ensures { result ≡ count_at part key.now (view entry.now) }
{
    let number = number_at(part, entry, key)?;
    match u32::try_from(number) {
        Ok(number) => Count::new(number).ok_or(TextFault::Range),
        Err(_) => Err(TextFault::Range),
    }
}

/// A currency.
pub(crate) fn currency_at(part: Part, entry: &Value, key: &str) -> Result<Currency, TextFault>
    ensures { result ≡ currency_at part key.now (view entry.now) }
{
    Currency::new(text_at(part, entry, key)?.as_bytes()).ok_or(TextFault::Range)
}

/// A month.
pub(crate) fn expiry_at(part: Part, entry: &Value, key: &str) -> Result<Expiry, TextFault>
    ensures { result ≡ expiry_at part key.now (view entry.now) }
{
    Expiry::new(text_at(part, entry, key)?.as_bytes()).ok_or(TextFault::Range)
}

/// A card number.
pub(crate) fn pan_at(part: Part, entry: &Value, key: &str) -> Result<Pan, TextFault>
    ensures { result ≡ pan_at part key.now (view entry.now) }
{
    Pan::new(text_at(part, entry, key)?.as_bytes()).ok_or(TextFault::Range)
}

/// A prefix of card numbers.
pub(crate) fn prefix_at(part: Part, entry: &Value, key: &str) -> Result<PanPrefix, TextFault>
    ensures { result ≡ prefix_at part key.now (view entry.now) }
{
    PanPrefix::new(text_at(part, entry, key)?.as_bytes()).ok_or(TextFault::Range)
}

/// A day.
pub(crate) fn day_at(part: Part, entry: &Value, key: &str) -> Result<Day, TextFault>
    ensures { result ≡ day_at part key.now (view entry.now) }
{
    Day::new(text_at(part, entry, key)?.as_bytes()).ok_or(TextFault::Range)
}

/// An action code.
pub(crate) fn action_at(part: Part, entry: &Value, key: &str) -> Result<Action, TextFault>
    ensures { result ≡ action_at part key.now (view entry.now) }
{
    match Digits::new(text_at(part, entry, key)?.as_bytes()) {
        Some(digits) => Ok(Action::from_digits(&digits)),
        None => Err(TextFault::Range),
    }
}

/// A processing code.
pub(crate) fn processing_at(part: Part, entry: &Value, key: &str) -> Result<Processing, TextFault>
    ensures { result ≡ processing_at part key.now (view entry.now) }
{
    Processing::new(text_at(part, entry, key)?.as_bytes()).ok_or(TextFault::Range)
}

/// An acquirer.
pub(crate) fn acquirer_at(part: Part, entry: &Value, key: &str) -> Result<Acquirer, TextFault>
    ensures { result ≡ acquirer_at part key.now (view entry.now) }
{
    Acquirer::new(text_at(part, entry, key)?.as_bytes()).ok_or(TextFault::Range)
}

/// A trace number.
pub(crate) fn stan_at(part: Part, entry: &Value, key: &str) -> Result<Stan, TextFault>
    ensures { result ≡ stan_at part key.now (view entry.now) }
{
    Stan::new(text_at(part, entry, key)?.as_bytes()).ok_or(TextFault::Range)
}

/// A local date and time.
pub(crate) fn stamp_at(part: Part, entry: &Value, key: &str) -> Result<LocalStamp, TextFault>
    ensures { result ≡ stamp_at part key.now (view entry.now) }
{
    LocalStamp::new(text_at(part, entry, key)?.as_bytes()).ok_or(TextFault::Range)
}
