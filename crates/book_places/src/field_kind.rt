ghost use Rattle.std.specs.Prelude.{◌≡◌};
ghost use Rattle.book_places.specs.Words.{kind_words};

use iso8583::{
    AccountId, Acquirer, Amount, Approval, Currency, Day, Digits, LocalStamp, Pan, PanPrefix,
    Processing, Stan,
};
use issuer_rows::{Balance, Count, Expiry};
use serde_json::Value;
use std::fmt;

/// What a field of an entry holds.
#[derive(Clone, Copy)]
pub enum FieldKind {
    /// The name of an account.
    Account,
    /// The name of an account, or null.
    OptionalAccount,
    /// An acquirer.
    Acquirer,
    /// An action code.
    Action,
    /// An amount of a message.
    Amount,
    /// An approval code, or null.
    OptionalApproval,
    /// A number of approvals.
    Count,
    /// A currency.
    Currency,
    /// A day.
    Day,
    /// The identity of a reversal.
    Identity,
    /// The identity of a reversal, or null.
    OptionalIdentity,
    /// Whether an original was a request or an advice.
    Kind,
    /// How a budget is used.
    Mode,
    /// Money in a row.
    Money,
    /// A month.
    Month,
    /// What paid for an original, where accounts have the money.
    Paid,
    /// The same where cards have it.
    PaidByCard,
    /// A card number.
    Pan,
    /// The first digits of card numbers.
    Prefix,
    /// A processing code.
    Processing,
    /// A local date and time.
    Stamp,
    /// A card's status.
    Status,
    /// A trace number.
    Trace,
}

// Whether the text is one of these words.
fn is_one_of(text: &str, words: &[&str]) -> bool {
    words.iter().any(|word| *word == text)
}

// Whether the value is an object with the three fields of an identity.
fn is_identity(value: &Value) -> bool {
    let Some(members) = value.as_object() else {
        return false;
    };
    let fields = [
        ("acquirer", FieldKind::Acquirer),
        ("stamp", FieldKind::Stamp),
        ("trace", FieldKind::Trace),
    ];
    members.len() == 3
        && fields.iter().all(|(key, kind)| match value.get(*key) {
            Some(text) => kind.is_text(text),
            None => false,
        })
}

impl FieldKind {
    // Whether the value is a number of this kind.
    fn is_number(self, number: u64) -> bool {
        match self {
            FieldKind::Amount => Amount::new(number).is_some(),
            FieldKind::Money => Balance::new(number).is_some(),
            FieldKind::Count => match u32::try_from(number) {
                Ok(count) => Count::new(count).is_some(),
                Err(_) => false,
            },
            _ => false,
        }
    }

    // Whether the value is a text of this kind.
    fn is_text(self, value: &Value) -> bool {
        let Some(text) = value.as_str() else {
            return false;
        };
        let bytes = text.as_bytes();
        match self {
            FieldKind::Account | FieldKind::OptionalAccount => AccountId::new(bytes).is_some(),
            FieldKind::Acquirer => Acquirer::new(bytes).is_some(),
            FieldKind::Action => Digits::<3>::new(bytes).is_some(),
            FieldKind::OptionalApproval => Approval::new(bytes).is_some(),
            FieldKind::Currency => Currency::new(bytes).is_some(),
            FieldKind::Day => Day::new(bytes).is_some(),
            FieldKind::Month => Expiry::new(bytes).is_some(),
            FieldKind::Pan => Pan::new(bytes).is_some(),
            FieldKind::Prefix => PanPrefix::new(bytes).is_some(),
            FieldKind::Processing => Processing::new(bytes).is_some(),
            FieldKind::Stamp => LocalStamp::new(bytes).is_some(),
            FieldKind::Trace => Stan::new(bytes).is_some(),
            _ => self.is_word(text),
        }
    }

    // Whether the text is a word of this kind.
    fn is_word(self, text: &str) -> bool {
        match self {
            FieldKind::Kind => is_one_of(text, &["request", "advice"]),
            FieldKind::Mode => is_one_of(text, &["direct", "stand-in"]),
            FieldKind::Paid => is_one_of(text, &["nothing", "account", "budget"]),
            FieldKind::PaidByCard => is_one_of(text, &["nothing", "card", "budget"]),
            FieldKind::Status => is_one_of(text, &["active", "blocked", "lost", "stolen"]),
            _ => false,
        }
    }

    /// Whether the value is one that the field may hold.
    pub fn is_right(self, value: &Value) -> bool {
        match self {
            FieldKind::Amount | FieldKind::Money | FieldKind::Count => match value.as_u64() {
                Some(number) => self.is_number(number),
                None => false,
            },
            FieldKind::OptionalAccount | FieldKind::OptionalApproval => {
                value.is_null() || self.is_text(value)
            }
            FieldKind::Identity => is_identity(value),
            FieldKind::OptionalIdentity => value.is_null() || is_identity(value),
            _ => self.is_text(value),
        }
    }

    // What the field is to hold.
    fn words(self) -> &'static str
        ensures { result.now ≡ kind_words self }
    {
        match self {
            FieldKind::Account => "a name of 1 to 28 printable characters",
            FieldKind::OptionalAccount => "a name of 1 to 28 printable characters, or null",
            FieldKind::Acquirer => "1 to 11 digits",
            FieldKind::Action | FieldKind::Currency => "three digits",
            FieldKind::Amount => "a number up to 999999999999",
            FieldKind::OptionalApproval => "six letters, digits and spaces, or null",
            FieldKind::Count => "a number up to 999999",
            FieldKind::Day => "a day as YYMMDD",
            FieldKind::Identity => "an identity: acquirer, stamp and trace",
            FieldKind::OptionalIdentity => "an identity: acquirer, stamp and trace, or null",
            FieldKind::Kind => "request or advice",
            FieldKind::Mode => "direct or stand-in",
            FieldKind::Money => "a number up to 10^15",
            FieldKind::Month => "a month as YYMM",
            FieldKind::Paid => "nothing, account or budget",
            FieldKind::PaidByCard => "nothing, card or budget",
            FieldKind::Pan => "12 to 19 digits",
            FieldKind::Prefix | FieldKind::Processing | FieldKind::Trace => "six digits",
            FieldKind::Stamp => "a time as YYMMDDhhmmss",
            FieldKind::Status => "active, blocked, lost or stolen",
        }
    }
}

impl fmt::Display for FieldKind {
    ghost use Rattle.std.specs.Prelude.{Some};
    ghost use Rattle.book_places.specs.Words.{kind_words};

    ghost output = { λ kind. Some (kind_words kind) };

    fn fmt<W: fmt::Write>(&self, f: &mut fmt::Formatter<W>) -> fmt::Result {
        f.write_str(self.words())
    }
}
