//! Fields whose texts are words.

ghost use Rattle.std.specs.Prelude.{◌≡◌};
ghost use Rattle.serde_json.specs.View.{view};
ghost use Rattle.book_laws.specs.Fields.{status_at, mode_at, kind_at, paid_at};
ghost use Rattle.book_laws.specs.Words.{status_of, mode_of, kind_of, card_paid_of, account_paid_of, paid_of};

use crate::fields::text_at;
use book_laws::{BookVersion, Paid, Part, TextFault};
use iso8583::OriginalKind;
use issuer_rows::{BudgetMode, CardStatus};
use serde_json::Value;

/// The status that a word says.
pub(crate) fn status_of(word: &str) -> Option<CardStatus>
    ensures { result ≡ status_of word.now }
{
    match word {
        "active" => Some(CardStatus::Active),
        "blocked" => Some(CardStatus::Blocked),
        "lost" => Some(CardStatus::Lost),
        "stolen" => Some(CardStatus::Stolen),
        _ => None,
    }
}

/// A card's status.
pub(crate) fn status_at(part: Part, entry: &Value, key: &str) -> Result<CardStatus, TextFault>
    ensures { result ≡ status_at part key.now (view entry.now) }
{
    status_of(text_at(part, entry, key)?).ok_or(TextFault::Range)
}

/// The mode that a word says.
pub(crate) fn mode_of(word: &str) -> Option<BudgetMode>
    ensures { result ≡ mode_of word.now }
{
    match word {
        "direct" => Some(BudgetMode::Direct),
        "stand-in" => Some(BudgetMode::StandIn),
        _ => None,
    }
}

/// A budget's mode.
pub(crate) fn mode_at(part: Part, entry: &Value, key: &str) -> Result<BudgetMode, TextFault>
    ensures { result ≡ mode_at part key.now (view entry.now) }
{
    mode_of(text_at(part, entry, key)?).ok_or(TextFault::Range)
}

/// The kind that a word says.
pub(crate) fn kind_of(word: &str) -> Option<OriginalKind>
    ensures { result ≡ kind_of word.now }
{
    match word {
        "request" => Some(OriginalKind::Request),
        "advice" => Some(OriginalKind::Advice),
        _ => None,
    }
}

/// An original's kind.
pub(crate) fn kind_at(part: Part, entry: &Value, key: &str) -> Result<OriginalKind, TextFault>
    ensures { result ≡ kind_at part key.now (view entry.now) }
{
    kind_of(text_at(part, entry, key)?).ok_or(TextFault::Range)
}

fn card_paid_of(word: &str) -> Option<Paid>
    ensures { result ≡ card_paid_of word.now }
{
    match word {
        "nothing" => Some(Paid::Nothing),
        "card" => Some(Paid::Card),
        "budget" => Some(Paid::Budget),
        _ => None,
    }
}

/// What paid, in the words of version 3.
pub(crate) fn account_paid_of(word: &str) -> Option<Paid>
    ensures { result ≡ account_paid_of word.now }
{
    match word {
        "nothing" => Some(Paid::Nothing),
        "account" => Some(Paid::Account),
        "budget" => Some(Paid::Budget),
        _ => None,
    }
}

fn paid_of(version: BookVersion, word: &str) -> Option<Paid>
    ensures { result ≡ paid_of version word.now }
{
    match version {
        BookVersion::One | BookVersion::Two => card_paid_of(word),
        BookVersion::Three => account_paid_of(word),
    }
}

/// What paid, in the version's words.
pub(crate) fn paid_at(
    version: BookVersion,
    part: Part,
    entry: &Value,
    key: &str,
) -> Result<Paid, TextFault>
    ensures { result ≡ paid_at version part key.now (view entry.now) }
{
    paid_of(version, text_at(part, entry, key)?).ok_or(TextFault::Range)
}
