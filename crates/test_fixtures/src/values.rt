use iso8583::{AccountId, Acquirer, Action, Amount, Identity, LocalStamp, Pan, Stan};
use issuer_rows::{Balance, Count};

/// A card number: `A` is 4111110000000005, `B` is 4111110000000013.
pub fn pan(word: &str) -> Option<Pan> {
    Pan::new(spelled(word))
}

/// The name of an account: `A` and `B` are those of the cards' own numbers.
pub fn account(word: &str) -> Option<AccountId> {
    AccountId::new(spelled(word))
}

// What a word stands for, where that is not itself.
fn spelled(word: &str) -> &[u8] {
    match word {
        "A" => b"4111110000000005",
        "B" => b"4111110000000013",
        other => other.as_bytes(),
    }
}

/// An amount in minor units.
pub fn amount(word: &str) -> Option<Amount> {
    number(word).and_then(Amount::new)
}

/// Money of a row in minor units.
pub fn balance(word: &str) -> Option<Balance> {
    number(word).and_then(Balance::new)
}

// A number of approvals.
pub(crate) fn count(word: &str) -> Option<Count> {
    u32::from_str_radix(word, 10).ok().and_then(Count::new)
}

/// The identity with this trace number, of the acquirer and at the time that all messages have.
pub fn identity(trace: &str) -> Option<Identity> {
    Some(Identity {
        acquirer: Acquirer::new(b"123456")?,
        stan: Stan::new(trace.as_bytes())?,
        stamp: LocalStamp::new(b"260110120000")?,
    })
}

// Three digits of an action code.
pub(crate) fn action(digits: &str) -> Option<Action> {
    u16::from_str_radix(digits, 10).ok().and_then(Action::new)
}

// A number.
pub(crate) fn number(word: &str) -> Option<u64> {
    u64::from_str_radix(word, 10).ok()
}
