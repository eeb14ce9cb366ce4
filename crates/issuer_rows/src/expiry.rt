ghost use Rattle.std.specs.Prelude.{◌≡◌, nat_lt};
ghost use Rattle.iso8583.specs.Number.{number_of};
ghost use Rattle.std.specs.Option.{SomeIff};
ghost use Rattle.issuer_rows.specs.Expiry.{IsExpiry};
ghost use Rattle.issuer_rows.specs.Facts.{month_of};

use iso8583::{Digits, LocalStamp, number_of};
use std::marker::Model;

/// Month in which a card expires, YYMM: the month is 01 to 12.
#[derive(Clone, Copy, PartialEq, Eq, PartialOrd, Ord)]
pub struct Expiry {
    digits: Digits<4>,
}

impl Model for Expiry {
    ghost use Rattle.std.specs.Prelude.{ℕ, List};
    ghost use Rattle.issuer_rows.specs.Expiry.{IsExpiry};

    ghost Value = { List ℕ };

    ghost view = { λ e. e.digits };

    ghost invariant = { λ e. IsExpiry e.digits };

    ghost inverse = { λ text. record { digits = text } };
}

impl Expiry {
    /// The month, if the text is four digits with a month from 01 to 12.
    pub fn new(text: &[u8]) -> Option<Expiry>
        ensures { SomeIff result (IsExpiry text.now) text.now }
    {
        let digits = Digits::new(text)?;
        if matches!(number_of(&text[2..]), 1..=12) {
            Some(Expiry { digits })
        } else {
            None
        }
    }

    /// The month as text.
    pub fn as_slice(&self) -> &[u8]
        ensures text { result.now ≡ self.now }
        ensures month { IsExpiry result.now }
    {
        let _ = &self.digits;
        self.digits.as_slice()
    }

    /// The text as characters.
    pub fn as_str(&self) -> &str
        ensures text { result.now ≡ self.now }
        ensures month { IsExpiry result.now }
    {
        let _ = &self.digits;
        self.digits.as_str()
    }

    /// Whether the month is before that of the date and time; years compare as two digits.
    #[tactic(auto, using(crate::proofs::ExpiryLaws::less_by_digits))]
    pub fn is_before(&self, stamp: &LocalStamp) -> bool
        ensures { result ≡ nat_lt (number_of self.now) (number_of (month_of stamp.now)) }
    {
        self.digits < stamp.month()
    }
}
