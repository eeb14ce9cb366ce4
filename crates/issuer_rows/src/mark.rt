ghost use Rattle.std.specs.Prelude.{◌≡◌, ◌↔◌, IsTrue};

use iso8583::{Identity, OriginalKind, Pan};

/// Reversal mark: it stands for an original whose reversal came ahead of it.
#[derive(Clone, Copy)]
pub struct Mark {
    /// The card that the reversal named.
    pub card: Pan,
    /// The kind of original that it named.
    pub kind: OriginalKind,
    /// The identity of the reversal.
    pub reversal: Identity,
}

impl Mark {
    /// Whether the other is the same.
    pub fn is_same(&self, other: &Mark) -> bool
        ensures { IsTrue result ↔ (self.now ≡ other.now) }
    {
        self.card == other.card && self.kind == other.kind && self.reversal == other.reversal
    }
}
