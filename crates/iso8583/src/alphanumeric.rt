ghost use Rattle.std.specs.Prelude.{◌≡◌, ℕ, length};
ghost use Rattle.std.specs.Option.{SomeIff};
ghost use Rattle.iso8583.specs.Class.{IsAlphanumeric};

use crate::class::is_alphanumeric;
use crate::digits::Digits;
use std::marker::Model;

/// A text of `N` letters, digits and spaces, in ASCII (ISO 8583:1993: anp).
#[derive(Clone, Copy, PartialEq, Eq)]
pub struct Alphanumeric<const N: usize> {
    bytes: [u8; N],
}

impl<const N: usize> Model for Alphanumeric<N> {
    ghost use Rattle.std.specs.Prelude.{◌≡◌, ℕ, List, length};
    ghost use Rattle.iso8583.specs.Class.{IsAlphanumeric};

    ghost Value = { List ℕ };

    ghost view = { λ t. t.bytes };

    ghost invariant = { λ t. (length t.bytes ≡ N) × IsAlphanumeric t.bytes };

    ghost inverse = { λ text. record { bytes = text } };
}

impl<const N: usize> Alphanumeric<N> {
    /// The text, if it is `N` of them.
    pub fn new(text: &[u8]) -> Option<Self>
        ensures { SomeIff result ((length text.now ≡ N) × IsAlphanumeric text.now) text.now }
    {
        if text.len() != N || !is_alphanumeric(text) {
            return None;
        }
        Some(Alphanumeric::of_text(text))
    }

    /// A text that was tested: `N` letters, digits and spaces.
    pub fn of_text(text: &[u8]) -> Self
        requires len { length text.now ≡ N }
        requires class { IsAlphanumeric text.now }
        ensures { result ≡ text.now }
    {
        let mut bytes = [0; N];
        bytes.copy_from_slice(text);
        Alphanumeric { bytes }
    }

    /// The text of these digits, which are letters, digits and spaces too.
    #[tactic(auto, using(crate::proofs::NumberLaws::alphanumeric_digits))]
    pub fn of_digits(digits: Digits<N>) -> Self
        ensures { result ≡ digits.entry }
    {
        Alphanumeric::of_text(digits.as_slice())
    }

    /// The text.
    pub fn as_slice(&self) -> &[u8]
        ensures text { result.now ≡ self.now }
        ensures len { length result.now ≡ N }
        ensures class { IsAlphanumeric result.now }
    {
        &self.bytes
    }
}
