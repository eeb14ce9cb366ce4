ghost use Rattle.std.specs.Prelude.{◌≡◌, ℕ, ◌≤◌, ◌<◌, ◌==◌, length};
ghost use Rattle.std.proofs.Common.{rules};
ghost use Rattle.std.specs.Cmp.{partial_order_from_own_ties};
ghost use Rattle.std.specs.Cmp.Lexicographic.{pointwise, slice_cmp};
ghost use Rattle.std.specs.Cmp.Rules.{comparing};
ghost use Rattle.std.specs.Option.{SomeIff};
ghost use Rattle.std.specs.Ordering.{nat_cmp, as_partial_cmp};
ghost use Rattle.iso8583.specs.Class.{IsPrintable};
ghost use Rattle.iso8583.specs.Padded.{HasPrintable};

use crate::class::is_printable;
use crate::order::order;
use std::cmp::Ordering;
use std::marker::Model;

/// A text of `MIN` to `MAX` printable characters, 0x20 to 0x7E (ans); `MAX` is at most 255.
#[derive(Clone, Copy)]
pub struct PrintableUpTo<const MIN: usize, const MAX: usize> {
    bytes: [u8; MAX],
    len: u8,
}

impl<const MIN: usize, const MAX: usize> Model for PrintableUpTo<MIN, MAX> {
    ghost use Rattle.std.specs.Prelude.{ℕ, ◌-◌, List, ◌++◌, length, take, replicate};
    ghost use Rattle.iso8583.specs.Class.{IsPrintable};
    ghost use Rattle.iso8583.specs.Padded.{IsPadded, bytes_back, length_back};

    ghost Value = { List ℕ };

    ghost view = { λ d. take d.len d.bytes };

    ghost invariant = { λ d. IsPadded IsPrintable MIN MAX d.bytes d.len };

    ghost inverse = { λ text. record { bytes = text ++ replicate (MAX - length text) 0; len = length text } };

    ghost inverse_ok = { λ d h i. record {
      bytes = bytes_back IsPrintable MIN MAX d.bytes d.len h i;
      len = length_back IsPrintable MIN MAX d.bytes d.len h i;
    } };
}

impl<const MIN: usize, const MAX: usize> PrintableUpTo<MIN, MAX> {
    /// The text, if it is `MIN` to `MAX` of them.
    pub fn new(text: &[u8]) -> Option<Self>
        requires { MAX < 256 }
        ensures { SomeIff result (HasPrintable MIN MAX text.now) text.now }
    {
        let len = text.len();
        if len < MIN || len > MAX || !is_printable(text) {
            return None;
        }
        Some(PrintableUpTo::of_text(text))
    }

    /// A text that was tested: `MIN` to `MAX` printable characters.
    pub fn of_text(text: &[u8]) -> Self
        requires max { MAX < 256 }
        requires text { HasPrintable MIN MAX text.now }
        ensures { result ≡ text.now }
    {
        let len = text.len();
        let mut bytes = [0; MAX];
        bytes[..len].copy_from_slice(text);
        PrintableUpTo {
            bytes,
            len: len as u8,
        }
    }

    /// The text.
    pub fn as_slice(&self) -> &[u8]
        ensures text { result.now ≡ self.now }
        ensures class { HasPrintable MIN MAX result.now }
    {
        &self.bytes[..usize::from(self.len)]
    }

    /// The text as characters.
    #[tactic(auto, using(crate::proofs::AsciiLaws::printable_utf8))]
    pub fn as_str(&self) -> &str
        ensures text { result.now ≡ self.now }
        ensures class { HasPrintable MIN MAX result.now }
    {
        let text = self.as_slice();
        // Text of this class is ASCII, so it is UTF-8.
        unsafe { str::from_utf8_unchecked(text) }
    }
}

impl<const MIN: usize, const MAX: usize> PartialEq for PrintableUpTo<MIN, MAX> {
    ghost eq = { pointwise ◌==◌ };

    ghost laws = { Prim.search (comparing, rules) };

    fn eq(&self, other: &Self) -> bool {
        self.as_str() == other.as_str()
    }
}

impl<const MIN: usize, const MAX: usize> Eq for PrintableUpTo<MIN, MAX> {
    ghost laws = { Prim.search (comparing, rules) };
}

/// By the bytes: a text stands behind each that it begins with.
impl<const MIN: usize, const MAX: usize> Ord for PrintableUpTo<MIN, MAX> {
    ghost cmp = { slice_cmp nat_cmp };

    ghost total = { Prim.search (comparing, rules) };

    ghost matches_partial_cmp = { Prim.search (comparing, rules) };

    ghost matches_eq = { Prim.search (comparing, rules) };

    #[inline(always)]
    fn cmp(&self, other: &Self) -> Ordering {
        order(&self.bytes, &other.bytes)
    }
}

impl<const MIN: usize, const MAX: usize> PartialOrd for PrintableUpTo<MIN, MAX> {
    ghost partial_cmp = { as_partial_cmp (slice_cmp nat_cmp) };

    ghost laws = { partial_order_from_own_ties (Prim.search (comparing, rules)) (Prim.search (comparing, rules)) };

    fn partial_cmp(&self, other: &Self) -> Option<Ordering> {
        Some(self.cmp(other))
    }
}
