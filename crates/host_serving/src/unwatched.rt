ghost use Rattle.std.specs.Prelude.{◌≡◌};

use crate::tally::Tally;
use crate::watch::Watch;
use issuer_rows::Frame;

/// Nobody is told.
#[derive(Clone, Copy, Debug)]
pub struct Unwatched;

impl Watch for Unwatched {
    ghost hears = { λ old _ _ new. new ≡ old };

    fn entry_synced(&mut self, _before: Tally, _messages: &[Frame]) {}
}
