ghost use Rattle.std.specs.Prelude.{◌≡◌, ℕ, ◌≤◌};
ghost use Rattle.std.specs.Option.{SomeIff};

use std::marker::Model;

/// How many parts a batch is put in at most: 1 to 64.
#[derive(Clone, Copy, Debug, PartialEq, Eq)]
pub struct MostParts {
    count: u32,
}

impl Model for MostParts {
    ghost use Rattle.std.specs.Prelude.{ℕ, ◌≤◌};

    ghost Value = { ℕ };

    ghost view = { λ m. m.count };

    ghost invariant = { λ m. (1 ≤ m.count) × (m.count ≤ 64) };

    ghost inverse = { λ n. record { count = n } };
}

impl MostParts {
    /// The number of parts, if it is 1 to 64.
    pub fn new(count: u32) -> Option<MostParts>
        ensures { SomeIff result ((1 ≤ count) × (count ≤ 64)) count }
    {
        if matches!(count, 1..=64) {
            Some(MostParts { count })
        } else {
            None
        }
    }

    /// The number, 1 to 64.
    pub fn count(&self) -> u32
        ensures value { result ≡ self.now }
        ensures low { 1 ≤ result }
        ensures high { result ≤ 64 }
    {
        self.count
    }
}
