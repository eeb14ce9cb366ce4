ghost use Rattle.std.specs.Prelude.{◌≡◌, length, take};
ghost use Rattle.std.specs.Option.{SomeIff};
ghost use Rattle.iso8583.specs.Class.{IsDigits};

use crate::digits::Digits;

/// Processing code, element 3: six digits (ISO 8583:1993).
#[derive(Clone, Copy, PartialEq, Eq)]
pub struct Processing(pub Digits<6>);

impl Processing {
    /// The value, if the text is six digits.
    pub fn new(text: &[u8]) -> Option<Processing>
        ensures { SomeIff result ((length text.now ≡ 6) × IsDigits text.now) (record { 0 = text.now }) }
    {
        Some(Processing(Digits::new(text)?))
    }

    /// The text.
    pub fn as_slice(&self) -> &[u8]
        ensures { result.now ≡ self.now.0 }
    {
        self.0.as_slice()
    }

    /// The first two digits: the type of transaction.
    pub fn transaction_type(&self) -> &[u8]
        ensures { result.now ≡ take 2 self.now.0 }
    {
        &self.0.as_slice()[..2]
    }
}
