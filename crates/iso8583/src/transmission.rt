ghost use Rattle.std.specs.Prelude.{◌≡◌, length};
ghost use Rattle.std.specs.Option.{SomeIff};
ghost use Rattle.iso8583.specs.Class.{IsDigits};

use crate::digits::Digits;

/// Transmission date and time, element 7: ten digits, MMDDhhmmss (ISO 8583:1993).
#[derive(Clone, Copy, PartialEq, Eq)]
pub struct Transmission(pub Digits<10>);

impl Transmission {
    /// The value, if the text is ten digits.
    pub fn new(text: &[u8]) -> Option<Transmission>
        ensures { SomeIff result ((length text.now ≡ 10) × IsDigits text.now) (record { 0 = text.now }) }
    {
        Some(Transmission(Digits::new(text)?))
    }

    /// The text.
    pub fn as_slice(&self) -> &[u8]
        ensures { result.now ≡ self.now.0 }
    {
        self.0.as_slice()
    }
}
