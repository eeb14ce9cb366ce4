ghost use Rattle.std.specs.Prelude.{◌≡◌, ℕ, ◌+◌, ◌-◌, ◌≤◌, ◌^◌};
ghost use Rattle.std.specs.Option.{SomeIff};

use iso8583::Amount;
use std::marker::Model;

/// Money kept in a row, in minor units: 0 to 10^15.
#[derive(Clone, Copy, PartialEq, Eq, PartialOrd, Ord)]
pub struct Balance {
    minor: u64,
}

impl Model for Balance {
    ghost use Rattle.std.specs.Prelude.{ℕ, ◌≤◌, ◌^◌};

    ghost Value = { ℕ };

    ghost view = { λ b. b.minor };

    ghost invariant = { λ b. b.minor ≤ 10 ^ 15 };

    ghost inverse = { λ n. record { minor = n } };
}

impl Balance {
    /// Nothing.
    pub const ZERO: Balance = Balance { minor: 0 };

    /// The balance, if it is at most 10^15.
    pub fn new(minor: u64) -> Option<Balance>
        ensures { SomeIff result (minor ≤ 10 ^ 15) minor }
    {
        if minor <= 1_000_000_000_000_000 {
            Some(Balance { minor })
        } else {
            None
        }
    }

    /// The money in minor units, 0 to 10^15.
    pub fn minor(&self) -> u64
        ensures value { result ≡ self.now }
        ensures bound { result ≤ 10 ^ 15 }
    {
        self.minor
    }

    /// The balance without the amount, if there is as much.
    pub fn checked_sub(&self, amount: Amount) -> Option<Balance>
        ensures { SomeIff result (amount ≤ self.now) (self.now - amount) }
    {
        Some(Balance {
            minor: self.minor.checked_sub(amount.minor())?,
        })
    }

    /// The balance and the amount, if they are at most 10^15 together.
    pub fn checked_add(&self, amount: Amount) -> Option<Balance>
        ensures { SomeIff result (self.now + amount ≤ 10 ^ 15) (self.now + amount) }
    {
        Balance::new(self.minor + amount.minor())
    }

    /// The balance less the amount, and nothing where that is more.
    pub fn saturating_sub(&self, amount: Amount) -> Balance
        ensures { result ≡ self.now - amount }
    {
        Balance {
            minor: self.minor.saturating_sub(amount.minor()),
        }
    }
}
