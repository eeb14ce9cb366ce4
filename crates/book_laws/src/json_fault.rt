ghost use Rattle.std.specs.Prelude.{◌≡◌};
ghost use Rattle.book_laws.specs.JsonFault.{number_of_json_fault, fault_of_text};

use crate::book_fault::BookFault;
use crate::part::Part;
use crate::text_fault::TextFault;
use std::error::Error;
use std::fmt;

/// Why a text is no book.
#[derive(Clone, Copy, Debug, PartialEq, Eq)]
pub enum JsonFault {
    /// The text is no JSON.
    Syntax,
    /// The part has other keys, a value of another kind, or a row that stands before it.
    Shape(Part),
    /// A number or a text is outside its range, or an original is none that can be.
    Range,
    /// It is a book, and this is wrong with it.
    Invalid(BookFault),
    /// Memory ran out.
    OutOfMemory,
}

impl JsonFault {
    /// The fault's number, 1 to 5.
    pub fn number(&self) -> u8
        ensures { result ≡ number_of_json_fault self.now }
    {
        match self {
            JsonFault::Syntax => 1,
            JsonFault::Shape(_) => 2,
            JsonFault::Range => 3,
            JsonFault::Invalid(_) => 4,
            JsonFault::OutOfMemory => 5,
        }
    }
}

impl fmt::Display for JsonFault {
    fn fmt<W: fmt::Write>(&self, f: &mut fmt::Formatter<W>) -> fmt::Result {
        match self {
            JsonFault::Syntax => write!(f, "the text is no JSON"),
            JsonFault::Shape(part) => {
                write!(f, "part {} of the book has another shape", part.number())
            }
            JsonFault::Range => write!(f, "a number or a text is outside its range"),
            JsonFault::Invalid(fault) => write!(f, "the book is not sound: {fault}"),
            JsonFault::OutOfMemory => write!(f, "memory ran out"),
        }
    }
}

impl Error for JsonFault {}

impl From<TextFault> for JsonFault {
    ghost from_gives = { λ text fault. fault ≡ fault_of_text text };

    fn from(fault: TextFault) -> JsonFault {
        match fault {
            TextFault::Syntax => JsonFault::Syntax,
            TextFault::Shape(part) => JsonFault::Shape(part),
            TextFault::Range => JsonFault::Range,
            TextFault::OutOfMemory => JsonFault::OutOfMemory,
        }
    }
}
