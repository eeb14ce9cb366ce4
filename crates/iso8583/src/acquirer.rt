ghost use Rattle.std.specs.Prelude.{◌≡◌};
ghost use Rattle.std.specs.Option.{SomeIff};
ghost use Rattle.iso8583.specs.Padded.{HasDigits};

use crate::digits_up_to::DigitsUpTo;

/// Acquiring institution identification code, element 32: 1 to 11 digits (ISO 8583:1993).
#[derive(Clone, Copy, PartialEq, Eq, PartialOrd, Ord)]
pub struct Acquirer(pub DigitsUpTo<1, 11>);

impl Acquirer {
    /// The number, if the text is 1 to 11 digits.
    pub fn new(text: &[u8]) -> Option<Acquirer>
        ensures { SomeIff result (HasDigits 1 11 text.now) (record { 0 = text.now }) }
    {
        Some(Acquirer(DigitsUpTo::new(text)?))
    }

    /// The digits as text.
    pub fn as_slice(&self) -> &[u8]
        ensures text { result.now ≡ self.now.0 }
        ensures digits { HasDigits 1 11 result.now }
    {
        self.0.as_slice()
    }

    /// The text as characters.
    pub fn as_str(&self) -> &str
        ensures text { result.now ≡ self.now.0 }
        ensures digits { HasDigits 1 11 result.now }
    {
        self.0.as_str()
    }
}
