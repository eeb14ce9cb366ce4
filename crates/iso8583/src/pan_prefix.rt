ghost use Rattle.std.specs.Prelude.{◌≡◌, length};
ghost use Rattle.std.specs.Option.{SomeIff};
ghost use Rattle.iso8583.specs.Class.{IsDigits};

use crate::digits::Digits;

/// The first six digits of a card number, which name its issuer (ISO/IEC 7812-1).
#[derive(Clone, Copy, PartialEq, Eq, PartialOrd, Ord)]
pub struct PanPrefix(pub Digits<6>);

impl PanPrefix {
    /// The value, if the text is six digits.
    pub fn new(text: &[u8]) -> Option<PanPrefix>
        ensures { SomeIff result ((length text.now ≡ 6) × IsDigits text.now) (record { 0 = text.now }) }
    {
        Some(PanPrefix(Digits::new(text)?))
    }

    /// The text.
    pub fn as_slice(&self) -> &[u8]
        ensures text { result.now ≡ self.now.0 }
        ensures digits { IsDigits result.now }
    {
        self.0.as_slice()
    }

    /// The text as characters.
    pub fn as_str(&self) -> &str
        ensures { result.now ≡ self.now.0 }
    {
        self.0.as_str()
    }
}
