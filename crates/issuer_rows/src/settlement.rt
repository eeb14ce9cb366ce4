ghost use Rattle.std.specs.Prelude.{◌≡◌, ◌↔◌, IsTrue};

use iso8583::{Amount, Identity};

/// How a posted original was reversed.
#[derive(Clone, Copy)]
pub struct Settlement {
    /// The identity of its reversal.
    pub reversal: Identity,
    /// How much of its amount stays paid.
    pub stay: Amount,
}

impl Settlement {
    /// Whether the other is the same.
    pub fn is_same(&self, other: &Settlement) -> bool
        ensures { IsTrue result ↔ (self.now ≡ other.now) }
    {
        self.reversal == other.reversal && self.stay == other.stay
    }
}
