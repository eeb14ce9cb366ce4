use crate::splitting::split_body;
use std::marker::Model;

/// Bodies that are still to be given, in order.
#[derive(Drop)]
pub struct BodyIter<'a> {
    text: &'a [u8],
    left: u32,
}

impl<'a> Model for BodyIter<'a> {
    ghost use Rattle.std.specs.Prelude.{ℕ, List};
    ghost use Rattle.log_file.specs.Bodies.{bodies_in, IsFramed};

    ghost Value = { List (List ℕ) };

    ghost view = { λ b. bodies_in b.left b.text.now };

    ghost invariant = { λ b. IsFramed b.left b.text.now };
}

impl<'a> BodyIter<'a> {
    ghost use Rattle.std.specs.Prelude.{◌≡◌};
    ghost use Rattle.log_file.specs.Bodies.{bodies_in, IsFramed};

    /// So many bodies of this text.
    pub(crate) fn new(text: &'a [u8], left: u32) -> BodyIter<'a>
        requires { IsFramed left text.now }
        ensures { result ≡ bodies_in left text.now }
    {
        BodyIter { text, left }
    }
}

impl<'a> Iterator for BodyIter<'a> {
    ghost use Rattle.std.specs.Iterator.{YieldsFirstRef, item_count};

    type Item = &'a [u8];

    ghost next_gives = { YieldsFirstRef (λ rest. rest) };

    ghost remaining = { item_count (λ rest. rest) };

    fn next(&mut self) -> Option<&'a [u8]> {
        if self.left == 0 {
            return None;
        }
        let (body, rest) = split_body(self.text)?;
        self.text = rest;
        self.left -= 1;
        Some(body)
    }
}
