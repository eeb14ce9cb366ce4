ghost use Rattle.std.specs.Prelude.{◌≡◌, length};
ghost use Rattle.std.specs.Option.{SomeIff};
ghost use Rattle.iso8583.specs.Class.{IsAlphanumeric};

use crate::alphanumeric::Alphanumeric;

/// Retrieval reference number, element 37: twelve letters, digits or spaces (ISO 8583:1993).
#[derive(Clone, Copy, PartialEq, Eq)]
pub struct Retrieval(pub Alphanumeric<12>);

impl Retrieval {
    /// The value, if the text is twelve letters, digits or spaces.
    pub fn new(text: &[u8]) -> Option<Retrieval>
        ensures { SomeIff result ((length text.now ≡ 12) × IsAlphanumeric text.now) (record { 0 = text.now }) }
    {
        Some(Retrieval(Alphanumeric::new(text)?))
    }

    /// The text.
    pub fn as_slice(&self) -> &[u8]
        ensures { result.now ≡ self.now.0 }
    {
        self.0.as_slice()
    }
}
