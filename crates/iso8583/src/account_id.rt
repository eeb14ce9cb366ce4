ghost use Rattle.std.specs.Prelude.{◌≡◌};
ghost use Rattle.std.specs.Option.{SomeIff};
ghost use Rattle.iso8583.specs.Padded.{HasPrintable};

use crate::printable_up_to::PrintableUpTo;

/// Account identification 1, element 102: 1 to 28 printable characters, 0x20 to 0x7E (ISO 8583:1993).
#[derive(Clone, Copy, PartialEq, Eq, PartialOrd, Ord)]
pub struct AccountId(pub PrintableUpTo<1, 28>);

impl AccountId {
    /// The value, if the text is 1 to 28 printable characters.
    pub fn new(text: &[u8]) -> Option<AccountId>
        ensures { SomeIff result (HasPrintable 1 28 text.now) (record { 0 = text.now }) }
    {
        Some(AccountId(PrintableUpTo::new(text)?))
    }

    /// The text.
    pub fn as_slice(&self) -> &[u8]
        ensures text { result.now ≡ self.now.0 }
        ensures class { HasPrintable 1 28 result.now }
    {
        self.0.as_slice()
    }

    /// The text as characters.
    pub fn as_str(&self) -> &str
        ensures text { result.now ≡ self.now.0 }
        ensures class { HasPrintable 1 28 result.now }
    {
        self.0.as_str()
    }
}
