ghost use Rattle.std.specs.Prelude.{◌≡◌, ◌<◌, ◌++◌, ℕ, List, [], true, false, Ok};

use std::alloc::{AllocError, Global};

/// Bytes that are made piece by piece. Memory can run out meanwhile.
pub trait Pieces {
    // The bytes that are still to be made.
    ghost rest: { Self → List ℕ };
    // The piece that was made last.
    ghost made: { Self → List ℕ };
    // How many pieces are still to be made, at most.
    ghost left: { Self → ℕ };

    /// Makes the next piece, which may be empty. Returns false at the end, where none is left.
    fn make_next(&mut self) -> Result<bool, AllocError>
        ensures some { result ≡ Ok true → rest self.old ≡ made self.new ++ rest self.new }
        ensures fewer { result ≡ Ok true → left self.new < left self.old }
        ensures end { result ≡ Ok false → rest self.old ≡ [] };

    /// The piece that was made last.
    fn piece(&self) -> &[u8]
        ensures { result.now ≡ made self.now };
}
