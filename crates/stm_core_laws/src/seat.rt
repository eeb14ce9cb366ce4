ghost use Rattle.std.specs.Prelude.{◌≡◌, ◌<◌};
ghost use Rattle.std.specs.Option.{SomeIff};

use std::marker::Model;

/// One of the 64 seats at which workers work: a validation that a worker makes goes on at its seat from call to call.
#[derive(Clone, Copy, Debug, PartialEq, Eq)]
pub struct Seat {
    number: u32,
}

impl Model for Seat {
    ghost use Rattle.std.specs.Prelude.{ℕ, ◌<◌};

    ghost Value = { ℕ };

    ghost view = { λ s. s.number };

    ghost invariant = { λ s. s.number < 64 };

    ghost inverse = { λ n. record { number = n } };
}

impl Seat {
    /// The seat of number 0.
    pub fn first() -> Seat
        ensures { result ≡ 0 }
    {
        Seat { number: 0 }
    }

    /// The seat of this number, if it is below 64.
    pub fn new(number: u32) -> Option<Seat>
        ensures { SomeIff result (number < 64) number }
    {
        if number < 64 {
            Some(Seat { number })
        } else {
            None
        }
    }

    /// The seat's number, 0 to 63.
    pub fn number(&self) -> u32
        ensures value { result ≡ self.now }
        ensures bound { result < 64 }
    {
        self.number
    }
}
