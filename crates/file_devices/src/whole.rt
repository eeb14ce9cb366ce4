ghost use Rattle.std.specs.Prelude.{◌≡◌, [], cond, false};

use crate::pieces::Pieces;
use std::alloc::AllocError;

/// Bytes that are there already, as one piece.
#[derive(Drop)]
pub struct Whole<'a> {
    bytes: &'a [u8],
    is_given: bool,
}

impl<'a> Whole<'a> {
    /// These bytes as one piece.
    pub fn new(bytes: &'a [u8]) -> Whole<'a>
        ensures bytes { result.bytes.now ≡ bytes.now }
        ensures rest { result.is_given ≡ false }
    {
        Whole {
            bytes,
            is_given: false,
        }
    }
}

impl Pieces for Whole<'_> {
    ghost rest = { λ whole. cond whole.is_given [] whole.bytes.now };

    ghost made = { λ whole. whole.bytes.now };

    ghost left = { λ whole. cond whole.is_given 0 1 };

    fn make_next(&mut self) -> Result<bool, AllocError> {
        if self.is_given {
            return Ok(false);
        }
        self.is_given = true;
        Ok(true)
    }

    fn piece(&self) -> &[u8] {
        self.bytes
    }
}
