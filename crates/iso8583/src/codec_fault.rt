ghost use Rattle.std.specs.Prelude.{◌≡◌};
ghost use Rattle.iso8583.specs.CodecFault.{number_of_fault, element_of_fault};

use std::fmt;

/// Why a text is no message, or a message could not be written. A number is that of the element.
#[derive(Clone, Copy, Debug, PartialEq, Eq)]
pub enum CodecFault {
    /// Fewer bytes are left than the element needs; element 0 is the message type and the bitmap.
    Short(u8),
    /// The first four bytes are no message type that is taken in.
    BadMti,
    /// Bit 1 announces a secondary bitmap, and its eight bytes are zeros.
    SecondaryBitmap,
    /// The element is present and not of this message type.
    Unexpected(u8),
    /// The element is absent and required.
    Missing(u8),
    /// The length in front of the element is no number or outside its bounds.
    BadLength(u8),
    /// A byte of the element is outside its class.
    BadCharacter(u8),
    /// A byte stands after the last element.
    Trailing,
    /// The element fails its value test.
    BadValue(u8),
    /// Memory ran out.
    OutOfMemory,
}

impl CodecFault {
    /// The fault's number, 1 to 10.
    pub fn number(&self) -> u8
        ensures { result ≡ number_of_fault self.now }
    {
        match self {
            CodecFault::Short(_) => 1,
            CodecFault::BadMti => 2,
            CodecFault::SecondaryBitmap => 3,
            CodecFault::Unexpected(_) => 4,
            CodecFault::Missing(_) => 5,
            CodecFault::BadLength(_) => 6,
            CodecFault::BadCharacter(_) => 7,
            CodecFault::Trailing => 8,
            CodecFault::BadValue(_) => 9,
            CodecFault::OutOfMemory => 10,
        }
    }

    /// The number of the element, 0 where the fault is of none.
    pub fn element(&self) -> u8
        ensures { result ≡ element_of_fault self.now }
    {
        match self {
            CodecFault::Short(element)
            | CodecFault::Unexpected(element)
            | CodecFault::Missing(element)
            | CodecFault::BadLength(element)
            | CodecFault::BadCharacter(element)
            | CodecFault::BadValue(element) => *element,
            _ => 0,
        }
    }
}

impl fmt::Display for CodecFault {
    fn fmt<W: fmt::Write>(&self, f: &mut fmt::Formatter<W>) -> fmt::Result {
        match self {
            CodecFault::Short(element) => write!(f, "too few bytes for element {element}"),
            CodecFault::BadMti => write!(f, "unknown message type"),
            CodecFault::SecondaryBitmap => write!(f, "secondary bitmap"),
            CodecFault::Unexpected(element) => write!(f, "unexpected element {element}"),
            CodecFault::Missing(element) => write!(f, "missing element {element}"),
            CodecFault::BadLength(element) => write!(f, "bad length of element {element}"),
            CodecFault::BadCharacter(element) => write!(f, "bad character in element {element}"),
            CodecFault::Trailing => write!(f, "bytes after the last element"),
            CodecFault::BadValue(element) => write!(f, "bad value of element {element}"),
            CodecFault::OutOfMemory => write!(f, "out of memory"),
        }
    }
}
