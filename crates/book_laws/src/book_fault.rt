ghost use Rattle.std.specs.Prelude.{◌≡◌};
ghost use Rattle.book_laws.specs.CheckBook.{number_of_book_fault};

use std::error::Error;
use std::fmt;

/// What is wrong with a book that comes from outside.
#[derive(Clone, Copy, Debug, PartialEq, Eq)]
pub enum BookFault {
    /// A card's number fails the Luhn test (ISO/IEC 7812-1).
    CardNumber,
    /// An original was paid from an account that has no row.
    OriginalWithoutAccount,
    /// What backs an account or a prefix is over 10^15.
    OutOfRange,
    /// An account of a card has no row, or both are the same.
    CardWithoutAccount,
}

impl BookFault {
    /// The fault's number, 1 to 4.
    pub fn number(&self) -> u8
        ensures { result ≡ number_of_book_fault self.now }
    {
        match self {
            BookFault::CardNumber => 1,
            BookFault::OriginalWithoutAccount => 2,
            BookFault::OutOfRange => 3,
            BookFault::CardWithoutAccount => 4,
        }
    }
}

impl fmt::Display for BookFault {
    fn fmt<W: fmt::Write>(&self, f: &mut fmt::Formatter<W>) -> fmt::Result {
        match self {
            BookFault::CardNumber => write!(f, "a card's number fails the Luhn test"),
            BookFault::OriginalWithoutAccount => {
                write!(f, "an original was paid from an account that isn't there")
            }
            BookFault::OutOfRange => write!(f, "an account or a prefix is backed by over 10^15"),
            BookFault::CardWithoutAccount => {
                write!(f, "an account of a card isn't there, or both are the same")
            }
        }
    }
}

impl Error for BookFault {}
