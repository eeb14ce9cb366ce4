use iso_shown::MaskedPan;
use std::fmt;

/// What is wrong with a row of a book that is not sound.
#[derive(Clone, Copy)]
pub enum WrongRow {
    /// Its card number fails the Luhn test.
    CardNumber(MaskedPan),
    /// The account at this key of its entry has no row.
    NoAccount(&'static str),
    /// Its two accounts are the same.
    SameAccounts,
}

impl fmt::Display for WrongRow {
    ghost use Rattle.std.specs.Prelude.{Some};
    ghost use Rattle.book_places.specs.Words.{row_words};

    ghost output = { λ row. Some (row_words row) };

    fn fmt<W: fmt::Write>(&self, f: &mut fmt::Formatter<W>) -> fmt::Result {
        match self {
            WrongRow::CardNumber(pan) => write!(f, ".pan: {pan} fails the Luhn test"),
            WrongRow::NoAccount(key) => write!(f, ".{key}: this account isn't in the book"),
            WrongRow::SameAccounts => write!(f, ".second: it is the first account again"),
        }
    }
}
