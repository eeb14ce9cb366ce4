ghost use Rattle.std.specs.Prelude.{◌≡◌, length};
ghost use Rattle.std.specs.Option.{SomeIff};
ghost use Rattle.iso8583.specs.Class.{IsPrintable};

use crate::printable::Printable;

/// Card acceptor terminal identification, element 41: eight printable characters, 0x20 to 0x7E (ISO 8583:1993).
#[derive(Clone, Copy, PartialEq, Eq)]
pub struct Terminal(pub Printable<8>);

impl Terminal {
    /// The value, if the text is eight printable characters.
    pub fn new(text: &[u8]) -> Option<Terminal>
        ensures { SomeIff result ((length text.now ≡ 8) × IsPrintable text.now) (record { 0 = text.now }) }
    {
        Some(Terminal(Printable::new(text)?))
    }

    /// The text.
    pub fn as_slice(&self) -> &[u8]
        ensures { result.now ≡ self.now.0 }
    {
        self.0.as_slice()
    }
}
