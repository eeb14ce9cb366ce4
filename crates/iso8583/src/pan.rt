ghost use Rattle.std.specs.Prelude.{◌≡◌, take};
ghost use Rattle.std.specs.Option.{SomeIff};
ghost use Rattle.iso8583.specs.Padded.{HasDigits};

use crate::digits::Digits;
use crate::digits_up_to::DigitsUpTo;
use crate::pan_prefix::PanPrefix;

/// Primary account number, element 2: 12 to 19 digits (ISO/IEC 7812-1, ISO 8583:1993).
#[derive(Clone, Copy, PartialEq, Eq, PartialOrd, Ord)]
pub struct Pan(pub DigitsUpTo<12, 19>);

impl Pan {
    /// The number, if the text is 12 to 19 digits.
    pub fn new(text: &[u8]) -> Option<Pan>
        ensures { SomeIff result (HasDigits 12 19 text.now) (record { 0 = text.now }) }
    {
        Some(Pan(DigitsUpTo::new(text)?))
    }

    /// The digits as text.
    pub fn as_slice(&self) -> &[u8]
        ensures text { result.now ≡ self.now.0 }
        ensures digits { HasDigits 12 19 result.now }
    {
        self.0.as_slice()
    }

    /// The text as characters.
    pub fn as_str(&self) -> &str
        ensures text { result.now ≡ self.now.0 }
        ensures digits { HasDigits 12 19 result.now }
    {
        self.0.as_str()
    }

    /// The first six digits, which name the issuer (ISO/IEC 7812-1).
    pub fn prefix(&self) -> PanPrefix
        ensures { result ≡ record { 0 = take 6 self.now.0 } }
    {
        PanPrefix(Digits::of_text(&self.as_slice()[..6]))
    }
}
