ghost use Rattle.std.specs.Prelude.{◌≡◌, ◌↔◌, IsTrue};

use crate::original_ref::OriginalRef;
use crate::reversal_scope::ReversalScope;
use crate::transaction::Transaction;

/// Reversal advice, 1420, or its repeat, 1421 (ISO 8583:1993): an original is taken back, whole or in part.
#[derive(Clone, Copy)]
pub struct Reversal {
    /// Whether it is a repeat.
    pub repeat: bool,
    /// Elements 24 and 30.
    pub scope: ReversalScope,
    /// Element 56.
    pub original: OriginalRef,
    /// All other elements.
    pub transaction: Transaction,
}

impl Reversal {
    /// Whether the other is the same.
    pub fn is_same(&self, other: &Reversal) -> bool
        ensures { IsTrue result ↔ (self.now ≡ other.now) }
    {
        self.repeat == other.repeat
            && self.scope == other.scope
            && self.original == other.original
            && self.transaction.is_same(&other.transaction)
    }
}
