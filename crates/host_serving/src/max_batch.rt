use std::marker::Model;

/// How many frames a host serves in one turn, at most: 1 to 65,536. So many bodies can an entry of its log have.
#[derive(Clone, Copy, Debug, PartialEq, Eq)]
pub struct MaxBatch {
    count: u32,
}

impl Model for MaxBatch {
    ghost use Rattle.std.specs.Prelude.{ℕ, ◌≤◌};

    ghost Value = { ℕ };

    ghost view = { λ m. m.count };

    ghost invariant = { λ m. (1 ≤ m.count) × (m.count ≤ 65536) };

    ghost inverse = { λ n. record { count = n } };
}

impl MaxBatch {
    ghost use Rattle.std.specs.Prelude.{◌≡◌, ◌≤◌};
    ghost use Rattle.std.specs.Option.{SomeIff};

    /// So many frames, if that is 1 to 65,536.
    pub fn new(count: u32) -> Option<MaxBatch>
        ensures { SomeIff result ((1 ≤ count) × (count ≤ 65536)) count }
    {
        if matches!(count, 1..=65_536) {
            Some(MaxBatch { count })
        } else {
            None
        }
    }

    /// As many frames as an entry has room for.
    pub fn whole_entry() -> MaxBatch
        ensures { result ≡ 65536 }
    {
        MaxBatch { count: 65_536 }
    }

    /// How many they are.
    pub fn count(self) -> u32
        ensures value { result ≡ self }
        ensures some { 1 ≤ result }
        ensures most { result ≤ 65536 }
    {
        self.count
    }
}
