ghost use Rattle.std.specs.Prelude.{◌≡◌, ℕ, ◌==◌, length};
ghost use Rattle.std.proofs.Common.{rules};
ghost use Rattle.std.specs.Cmp.{partial_order_from_own_ties};
ghost use Rattle.std.specs.Cmp.Lexicographic.{pointwise, slice_cmp};
ghost use Rattle.std.specs.Cmp.Rules.{comparing};
ghost use Rattle.std.specs.Ordering.{nat_cmp, as_partial_cmp};
ghost use Rattle.std.specs.Option.{SomeIff};
ghost use Rattle.iso8583.specs.Class.{IsDigits};
ghost use Rattle.iso8583.specs.Number.{fixed_digits};

use crate::class::is_digits;
use crate::number::fixed_digits;
use crate::order::order;
use std::cmp::Ordering;
use std::marker::Model;

/// A text of `N` digits, in ASCII (ISO 8583:1993: n).
#[derive(Clone, Copy)]
pub struct Digits<const N: usize> {
    bytes: [u8; N],
}

impl<const N: usize> Model for Digits<N> {
    ghost use Rattle.std.specs.Prelude.{◌≡◌, ℕ, List, length};
    ghost use Rattle.iso8583.specs.Class.{IsDigits};

    ghost Value = { List ℕ };

    ghost view = { λ d. d.bytes };

    ghost invariant = { λ d. (length d.bytes ≡ N) × IsDigits d.bytes };

    ghost inverse = { λ text. record { bytes = text } };
}

impl<const N: usize> Digits<N> {
    /// The text, if it is `N` digits.
    pub fn new(text: &[u8]) -> Option<Self>
        ensures { SomeIff result ((length text.now ≡ N) × IsDigits text.now) text.now }
    {
        if text.len() != N || !is_digits(text) {
            return None;
        }
        Some(Digits::of_text(text))
    }

    /// A text that was tested: `N` digits.
    pub fn of_text(text: &[u8]) -> Self
        requires len { length text.now ≡ N }
        requires digits { IsDigits text.now }
        ensures { result ≡ text.now }
    {
        let mut bytes = [0; N];
        bytes.copy_from_slice(text);
        Digits { bytes }
    }

    /// The last `N` digits of a number, with leading zeros.
    pub fn of_number(number: u64) -> Self
        ensures { result ≡ fixed_digits N number }
    {
        Digits {
            bytes: fixed_digits(number),
        }
    }

    /// The digits as text.
    pub fn as_slice(&self) -> &[u8]
        ensures text { result.now ≡ self.now }
        ensures len { length result.now ≡ N }
        ensures digits { IsDigits result.now }
    {
        &self.bytes
    }

    /// The text as characters.
    #[tactic(auto, using(crate::proofs::AsciiLaws::digits_utf8))]
    pub fn as_str(&self) -> &str
        ensures text { result.now ≡ self.now }
        ensures len { length result.now ≡ N }
        ensures digits { IsDigits result.now }
    {
        let text = self.as_slice();
        // Text of this class is ASCII, so it is UTF-8.
        unsafe { str::from_utf8_unchecked(text) }
    }
}

impl<const N: usize> PartialEq for Digits<N> {
    ghost eq = { pointwise ◌==◌ };

    ghost laws = { Prim.search (comparing, rules) };

    fn eq(&self, other: &Self) -> bool {
        self.as_str() == other.as_str()
    }
}

impl<const N: usize> Eq for Digits<N> {
    ghost laws = { Prim.search (comparing, rules) };
}

/// By the bytes of the digits.
impl<const N: usize> Ord for Digits<N> {
    ghost cmp = { slice_cmp nat_cmp };

    ghost total = { Prim.search (comparing, rules) };

    ghost matches_partial_cmp = { Prim.search (comparing, rules) };

    ghost matches_eq = { Prim.search (comparing, rules) };

    #[inline(always)]
    fn cmp(&self, other: &Self) -> Ordering {
        order(&self.bytes, &other.bytes)
    }
}

impl<const N: usize> PartialOrd for Digits<N> {
    ghost partial_cmp = { as_partial_cmp (slice_cmp nat_cmp) };

    ghost laws = { partial_order_from_own_ties (Prim.search (comparing, rules)) (Prim.search (comparing, rules)) };

    fn partial_cmp(&self, other: &Self) -> Option<Ordering> {
        Some(self.cmp(other))
    }
}
