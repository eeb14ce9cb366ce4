ghost use Rattle.std.specs.Prelude.{◌≡◌, ℕ, length};
ghost use Rattle.std.specs.Option.{SomeIff};
ghost use Rattle.iso8583.specs.Class.{IsPrintable};

use crate::class::is_printable;
use std::marker::Model;

/// A text of `N` printable characters, 0x20 to 0x7E (ISO 8583:1993: ans).
#[derive(Clone, Copy, PartialEq, Eq)]
pub struct Printable<const N: usize> {
    bytes: [u8; N],
}

impl<const N: usize> Model for Printable<N> {
    ghost use Rattle.std.specs.Prelude.{◌≡◌, ℕ, List, length};
    ghost use Rattle.iso8583.specs.Class.{IsPrintable};

    ghost Value = { List ℕ };

    ghost view = { λ t. t.bytes };

    ghost invariant = { λ t. (length t.bytes ≡ N) × IsPrintable t.bytes };

    ghost inverse = { λ text. record { bytes = text } };
}

impl<const N: usize> Printable<N> {
    /// The text, if it is `N` of them.
    pub fn new(text: &[u8]) -> Option<Self>
        ensures { SomeIff result ((length text.now ≡ N) × IsPrintable text.now) text.now }
    {
        if text.len() != N || !is_printable(text) {
            return None;
        }
        Some(Printable::of_text(text))
    }

    /// A text that was tested: `N` printable characters.
    pub fn of_text(text: &[u8]) -> Self
        requires len { length text.now ≡ N }
        requires class { IsPrintable text.now }
        ensures { result ≡ text.now }
    {
        let mut bytes = [0; N];
        bytes.copy_from_slice(text);
        Printable { bytes }
    }

    /// The text.
    pub fn as_slice(&self) -> &[u8]
        ensures text { result.now ≡ self.now }
        ensures len { length result.now ≡ N }
        ensures class { IsPrintable result.now }
    {
        &self.bytes
    }
}
