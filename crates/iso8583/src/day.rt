ghost use Rattle.std.specs.Prelude.{◌≡◌, length, take};
ghost use Rattle.std.specs.Option.{SomeIff};
ghost use Rattle.iso8583.specs.Calendar.{IsDay, IsLocalStamp};

use crate::digits::Digits;
use crate::local_stamp::is_day;
use std::marker::Model;

/// A day, YYMMDD. The month is 01 to 12 and the day 01 to 31; years are two digits.
#[derive(Clone, Copy, PartialEq, Eq, PartialOrd, Ord)]
pub struct Day {
    digits: Digits<6>,
}

impl Model for Day {
    ghost use Rattle.std.specs.Prelude.{ℕ, List};
    ghost use Rattle.iso8583.specs.Calendar.{IsDay};

    ghost Value = { List ℕ };

    ghost view = { λ d. d.digits };

    ghost invariant = { λ d. IsDay d.digits };

    ghost inverse = { λ text. record { digits = text } };
}

impl Day {
    /// The day, if the text is six digits with a month and a day.
    pub fn new(text: &[u8]) -> Option<Day>
        ensures { SomeIff result (IsDay text.now) text.now }
    {
        let digits = Digits::new(text)?;
        if is_day(text) {
            Some(Day { digits })
        } else {
            None
        }
    }

    /// The day of a stamp's text.
    pub(crate) fn of_stamp(stamp: &[u8]) -> Day
        requires { IsLocalStamp stamp.now }
        ensures { result ≡ take 6 stamp.now }
    {
        Day {
            digits: Digits::of_text(&stamp[..6]),
        }
    }

    /// The day as text.
    pub fn as_slice(&self) -> &[u8]
        ensures text { result.now ≡ self.now }
        ensures day { IsDay result.now }
    {
        let _ = &self.digits;
        self.digits.as_slice()
    }

    /// The text as characters.
    pub fn as_str(&self) -> &str
        ensures text { result.now ≡ self.now }
        ensures day { IsDay result.now }
    {
        let _ = &self.digits;
        self.digits.as_str()
    }
}
