use crate::field_kind::FieldKind;
use iso8583::Digits;
use std::fmt;

/// What is wrong with an entry of a list.
#[derive(Clone, Copy)]
pub enum WrongEntry {
    /// It is no object with the keys of its list.
    Keys,
    /// The field at this key doesn't hold what it is to hold.
    Field(&'static str, FieldKind),
    /// The text at this key is four digits, and these last two are no month.
    Month(&'static str, Digits<2>),
    /// Its fields are right, and it is an original that can't be.
    Together,
    /// An earlier entry has its row.
    Twice,
}

impl fmt::Display for WrongEntry {
    ghost use Rattle.std.specs.Prelude.{Some};
    ghost use Rattle.book_places.specs.Words.{entry_words};

    ghost output = { λ entry. Some (entry_words entry) };

    fn fmt<W: fmt::Write>(&self, f: &mut fmt::Formatter<W>) -> fmt::Result {
        match self {
            WrongEntry::Keys => write!(f, ": it hasn't the keys of its list"),
            WrongEntry::Field(key, kind) => write!(f, ".{key}: not {kind}"),
            WrongEntry::Month(key, month) => write!(f, ".{key}: month {}", month.as_str()),
            WrongEntry::Together => write!(f, ": no original can be so"),
            WrongEntry::Twice => write!(f, ": an earlier entry has its row"),
        }
    }
}
