ghost use Rattle.std.specs.Prelude.{◌≡◌, length};
ghost use Rattle.std.specs.Option.{SomeIff};
ghost use Rattle.iso8583.specs.Class.{IsDigits};

use crate::digits::Digits;

/// Function code, element 24: three digits (ISO 8583:1993).
#[derive(Clone, Copy, PartialEq, Eq)]
pub struct FunctionCode(pub Digits<3>);

impl FunctionCode {
    /// The value, if the text is three digits.
    pub fn new(text: &[u8]) -> Option<FunctionCode>
        ensures { SomeIff result ((length text.now ≡ 3) × IsDigits text.now) (record { 0 = text.now }) }
    {
        Some(FunctionCode(Digits::new(text)?))
    }

    /// The text.
    pub fn as_slice(&self) -> &[u8]
        ensures { result.now ≡ self.now.0 }
    {
        self.0.as_slice()
    }
}
