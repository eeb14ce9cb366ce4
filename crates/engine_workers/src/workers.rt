ghost use Rattle.std.specs.Prelude.{◌≡◌, ℕ, ◌≤◌};
ghost use Rattle.std.specs.Option.{SomeIff};

use std::marker::Model;

/// How many threads decide a batch: 1 to 64.
#[derive(Clone, Copy, Debug, PartialEq, Eq)]
pub struct Workers {
    count: u32,
}

impl Model for Workers {
    ghost use Rattle.std.specs.Prelude.{ℕ, ◌≤◌};

    ghost Value = { ℕ };

    ghost view = { λ w. w.count };

    ghost invariant = { λ w. (1 ≤ w.count) × (w.count ≤ 64) };

    ghost inverse = { λ n. record { count = n } };
}

impl Workers {
    /// The number of threads, if it is 1 to 64.
    pub fn new(count: u32) -> Option<Workers>
        ensures { SomeIff result ((1 ≤ count) × (count ≤ 64)) count }
    {
        if matches!(count, 1..=64) {
            Some(Workers { count })
        } else {
            None
        }
    }

    /// The number, 1 to 64.
    pub fn count(&self) -> u32
        ensures value { result ≡ self.now }
        ensures low { 1 ≤ result }
        ensures high { result ≤ 64 }
    {
        self.count
    }
}
