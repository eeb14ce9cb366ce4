ghost use Rattle.std.specs.Prelude.{◌≡◌, ℕ, ◌≤◌, ◌<◌, ◌-◌, ◌^◌, length};
ghost use Rattle.std.specs.Option.{SomeIff};
ghost use Rattle.iso8583.specs.Number.{number_of, fixed_digits};

use crate::digits::Digits;
use crate::number::number_of;
use std::marker::Model;

/// Amount of a transaction in minor units, element 4: 0 to 999,999,999,999 (ISO 8583:1993).
#[derive(Clone, Copy, PartialEq, Eq, PartialOrd, Ord)]
pub struct Amount {
    minor: u64,
}

impl Model for Amount {
    ghost use Rattle.std.specs.Prelude.{ℕ, ◌<◌, ◌^◌};

    ghost Value = { ℕ };

    ghost view = { λ a. a.minor };

    ghost invariant = { λ a. a.minor < 10 ^ 12 };

    ghost inverse = { λ n. record { minor = n } };
}

impl Amount {
    /// Nothing.
    pub const ZERO: Amount = Amount { minor: 0 };

    /// The amount, if it has at most twelve digits.
    pub fn new(minor: u64) -> Option<Amount>
        ensures { SomeIff result (minor < 10 ^ 12) minor }
    {
        if minor < 1_000_000_000_000 {
            Some(Amount { minor })
        } else {
            None
        }
    }

    /// The amount that twelve digits stand for.
    pub fn from_digits(digits: &Digits<12>) -> Amount
        ensures { result ≡ number_of digits.now }
    {
        Amount {
            minor: number_of(digits.as_slice()),
        }
    }

    /// The amount in minor units, 0 to 999,999,999,999.
    pub fn minor(&self) -> u64
        ensures value { result ≡ self.now }
        ensures bound { result < 10 ^ 12 }
    {
        self.minor
    }

    /// The amount as twelve digits.
    pub fn digits(&self) -> Digits<12>
        ensures { result ≡ fixed_digits 12 self.now }
    {
        Digits::of_number(self.minor)
    }

    /// The amount less another, and nothing where that is more.
    pub fn saturating_sub(&self, other: Amount) -> Amount
        ensures { result ≡ self.now - other }
    {
        Amount {
            minor: self.minor.saturating_sub(other.minor),
        }
    }
}
