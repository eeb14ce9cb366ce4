ghost use Rattle.std.specs.Prelude.{◌≡◌, ◌↔◌, IsTrue};

use crate::advice::Advice;
use crate::request::Request;
use crate::reversal::Reversal;

/// A message that is taken in (ISO 8583:1993).
#[derive(Clone, Copy)]
pub enum Message {
    /// Authorization request, 1100 or 1101.
    Request(Request),
    /// Authorization advice, 1120 or 1121.
    Advice(Advice),
    /// Reversal advice, 1420 or 1421.
    Reversal(Reversal),
}

impl Message {
    /// Whether the other is the same.
    pub fn is_same(&self, other: &Message) -> bool
        ensures { IsTrue result ↔ (self.now ≡ other.now) }
    {
        match (self, other) {
            (Message::Request(mine), Message::Request(theirs)) => mine.is_same(theirs),
            (Message::Advice(mine), Message::Advice(theirs)) => mine.is_same(theirs),
            (Message::Reversal(mine), Message::Reversal(theirs)) => mine.is_same(theirs),
            _ => false,
        }
    }
}
