ghost use Rattle.std.specs.Prelude.{◌≡◌, ℕ, ◌+◌, ◌-◌, ◌<◌};
ghost use Rattle.std.specs.Option.{SomeIff};

use std::marker::Model;

/// A number of approvals: 0 to 999,999.
#[derive(Clone, Copy, PartialEq, Eq, PartialOrd, Ord)]
pub struct Count {
    number: u32,
}

impl Model for Count {
    ghost use Rattle.std.specs.Prelude.{ℕ, ◌<◌};

    ghost Value = { ℕ };

    ghost view = { λ c. c.number };

    ghost invariant = { λ c. c.number < 1000000 };

    ghost inverse = { λ n. record { number = n } };
}

impl Count {
    /// None.
    pub const ZERO: Count = Count { number: 0 };

    /// The count, if it is at most 999,999.
    pub fn new(number: u32) -> Option<Count>
        ensures { SomeIff result (number < 1000000) number }
    {
        if number < 1_000_000 {
            Some(Count { number })
        } else {
            None
        }
    }

    /// The number, 0 to 999,999.
    pub fn number(&self) -> u32
        ensures value { result ≡ self.now }
        ensures bound { result < 1000000 }
    {
        self.number
    }

    /// One more, unless the count is at its greatest.
    pub fn checked_next(&self) -> Option<Count>
        ensures { SomeIff result (self.now < 999999) (self.now + 1) }
    {
        Count::new(self.number + 1)
    }

    /// One less; none where there is none.
    pub fn saturating_previous(&self) -> Count
        ensures { result ≡ self.now - 1 }
    {
        Count {
            number: self.number.saturating_sub(1),
        }
    }
}
