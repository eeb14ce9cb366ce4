ghost use Rattle.std.specs.Prelude.{◌≡◌, ◌↔◌, IsTrue};

use crate::answer::Answer;
use crate::transaction::Transaction;

/// A reply that is given out: 1110, 1130 or 1430 (ISO 8583:1993).
#[derive(Clone, Copy)]
pub struct Reply {
    /// The elements that it repeats.
    pub transaction: Transaction,
    /// Its type, with elements 38 and 39.
    pub answer: Answer,
}

impl Reply {
    /// Whether the other is the same.
    pub fn is_same(&self, other: &Reply) -> bool
        ensures { IsTrue result ↔ (self.now ≡ other.now) }
    {
        self.answer == other.answer && self.transaction.is_same(&other.transaction)
    }
}
