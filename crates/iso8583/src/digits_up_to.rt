ghost use Rattle.std.specs.Prelude.{◌≡◌, ◌<◌};
ghost use Rattle.std.specs.Option.{SomeIff};
ghost use Rattle.iso8583.specs.Padded.{HasDigits};

use crate::class::is_digits;
use crate::printable_up_to::PrintableUpTo;
use std::marker::Model;

/// A text of `MIN` to `MAX` digits; `MAX` is at most 255. By the bytes of the digits: a text stands behind each that it
/// begins with.
#[derive(Clone, Copy, PartialEq, Eq, PartialOrd, Ord)]
pub struct DigitsUpTo<const MIN: usize, const MAX: usize> {
    text: PrintableUpTo<MIN, MAX>,
}

impl<const MIN: usize, const MAX: usize> Model for DigitsUpTo<MIN, MAX> {
    ghost use Rattle.std.specs.Prelude.{ℕ, List};
    ghost use Rattle.iso8583.specs.Padded.{HasDigits};

    ghost Value = { List ℕ };

    ghost view = { λ d. d.text };

    ghost invariant = { λ d. HasDigits MIN MAX d.text };

    ghost inverse = { λ text. record { text = text } };
}

impl<const MIN: usize, const MAX: usize> DigitsUpTo<MIN, MAX> {
    /// The text, if it is `MIN` to `MAX` digits.
    pub fn new(text: &[u8]) -> Option<Self>
        requires { MAX < 256 }
        ensures { SomeIff result (HasDigits MIN MAX text.now) text.now }
    {
        let len = text.len();
        if len < MIN || len > MAX || !is_digits(text) {
            return None;
        }
        Some(DigitsUpTo::of_text(text))
    }

    /// A text that was tested: `MIN` to `MAX` digits.
    #[tactic(auto, using(crate::proofs::AsciiLaws::digits_printable))]
    pub fn of_text(text: &[u8]) -> Self
        requires max { MAX < 256 }
        requires text { HasDigits MIN MAX text.now }
        ensures { result ≡ text.now }
    {
        DigitsUpTo {
            text: PrintableUpTo::of_text(text),
        }
    }

    /// The digits as text.
    pub fn as_slice(&self) -> &[u8]
        ensures text { result.now ≡ self.now }
        ensures digits { HasDigits MIN MAX result.now }
    {
        let _ = &self.text;
        self.text.as_slice()
    }

    /// The text as characters.
    pub fn as_str(&self) -> &str
        ensures text { result.now ≡ self.now }
        ensures digits { HasDigits MIN MAX result.now }
    {
        let _ = &self.text;
        self.text.as_str()
    }
}
