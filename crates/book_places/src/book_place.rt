use crate::wrong_entry::WrongEntry;
use crate::wrong_row::WrongRow;
use book_laws::RowList;
use std::fmt;

/// Where the first fault of a text stands that is no sound book, and what stands there.
#[derive(Clone, Copy)]
pub enum BookPlace {
    /// The text is no JSON at this line and column, from 1.
    Syntax(usize, usize),
    /// The top object has the keys of no version.
    Keys,
    /// The version is not that of the keys.
    Version,
    /// The list is none.
    List(RowList),
    /// The entry of this number of the list, from 0, is wrong.
    Entry(RowList, usize, WrongEntry),
    /// The text is a book, and the row of the entry of this number of the list, from 0, is wrong.
    Row(RowList, usize, WrongRow),
    /// The text is a book in which an account or a prefix is backed by over 10^15.
    Backing,
}

impl fmt::Display for BookPlace {
    ghost use Rattle.std.specs.Prelude.{Some};
    ghost use Rattle.book_places.specs.Words.{book_words};

    ghost output = { λ place. Some (book_words place) };

    fn fmt<W: fmt::Write>(&self, f: &mut fmt::Formatter<W>) -> fmt::Result {
        match self {
            BookPlace::Syntax(line, column) => write!(f, "line {line}, column {column}: no JSON"),
            BookPlace::Keys => write!(f, "it has the keys of no version"),
            BookPlace::Version => write!(f, "version: not that of the keys"),
            BookPlace::List(list) => write!(f, "{}: no list", list.key()),
            BookPlace::Entry(list, index, wrong) => write!(f, "{}[{index}]{wrong}", list.key()),
            BookPlace::Row(list, index, wrong) => write!(f, "{}[{index}]{wrong}", list.key()),
            BookPlace::Backing => write!(f, "an account or a prefix is backed by over 10^15"),
        }
    }
}
