ghost use Rattle.std.specs.Prelude.{◌≡◌, ◌+◌, ◌-◌, ◌*◌, ◌<◌, ◌≤◌, length, take};
ghost use Rattle.std.specs.Option.{SomeIff};
ghost use Rattle.iso8583.specs.Class.{IsDigits};
ghost use Rattle.iso8583.specs.Calendar.{two_digits, is_day, is_local_stamp, IsLocalStamp};

use crate::day::Day;
use crate::digits::Digits;
use std::marker::Model;

/// Local date and time of a transaction, element 12: YYMMDDhhmmss (ISO 8583:1993). The month is 01 to 12,
/// the day 01 to 31, the hour 00 to 23, the minute and the second 00 to 59; the calendar isn't looked at.
#[derive(Clone, Copy, PartialEq, Eq, PartialOrd, Ord)]
pub struct LocalStamp {
    digits: Digits<12>,
}

impl Model for LocalStamp {
    ghost use Rattle.std.specs.Prelude.{ℕ, List, IsTrue};
    ghost use Rattle.iso8583.specs.Calendar.{IsLocalStamp};

    ghost Value = { List ℕ };

    ghost view = { λ s. s.digits };

    ghost invariant = { λ s. IsLocalStamp s.digits };

    ghost inverse = { λ text. record { digits = text } };
}

impl LocalStamp {
    /// The stamp, if the text is twelve digits with a month, a day, an hour, a minute and a second.
    pub fn new(text: &[u8]) -> Option<LocalStamp>
        ensures { SomeIff result (IsLocalStamp text.now) text.now }
    {
        let digits = Digits::new(text)?;
        if is_local_stamp(text) {
            Some(LocalStamp { digits })
        } else {
            None
        }
    }

    /// A text that was tested: twelve digits with a month, a day, an hour, a minute and a second.
    pub fn of_text(text: &[u8]) -> LocalStamp
        requires { IsLocalStamp text.now }
        ensures { result ≡ text.now }
    {
        LocalStamp {
            digits: Digits::of_text(text),
        }
    }

    /// The stamp as text.
    pub fn as_slice(&self) -> &[u8]
        ensures text { result.now ≡ self.now }
        ensures stamp { IsLocalStamp result.now }
    {
        let _ = &self.digits;
        self.digits.as_slice()
    }

    /// The text as characters.
    pub fn as_str(&self) -> &str
        ensures text { result.now ≡ self.now }
        ensures stamp { IsLocalStamp result.now }
    {
        let _ = &self.digits;
        self.digits.as_str()
    }

    /// The month of the stamp, YYMM.
    pub fn month(&self) -> Digits<4>
        ensures { result ≡ take 4 self.now }
    {
        Digits::of_text(&self.as_slice()[..4])
    }

    /// The day of the stamp.
    pub fn day(&self) -> Day
        ensures { result ≡ take 6 self.now }
    {
        Day::of_stamp(self.as_slice())
    }
}

/// The number that two digits from a place on stand for.
pub(crate) fn two_digits(text: &[u8], place: usize) -> u8
    requires within { place + 1 < length text.now }
    requires digits { IsDigits text.now }
    ensures { result ≡ two_digits text.now place }
{
    10 * (text[place] - b'0') + (text[place + 1] - b'0')
}

/// Whether the text YYMMDD has a month from 01 to 12 and a day from 01 to 31.
pub(crate) fn is_day(text: &[u8]) -> bool
    requires size { 6 ≤ length text.now }
    requires digits { IsDigits text.now }
    ensures { result ≡ is_day text.now }
{
    matches!(two_digits(text, 2), 1..=12) && matches!(two_digits(text, 4), 1..=31)
}

/// Whether twelve digits YYMMDDhhmmss have a month, a day, an hour, a minute and a second.
pub fn is_local_stamp(text: &[u8]) -> bool
    requires size { length text.now ≡ 12 }
    requires digits { IsDigits text.now }
    ensures { result ≡ is_local_stamp text.now }
{
    is_day(text)
        && two_digits(text, 6) <= 23
        && two_digits(text, 8) <= 59
        && two_digits(text, 10) <= 59
}
