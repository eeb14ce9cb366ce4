use iso8583::CodecFault;
use issuer_rows::FrameFault;
use std::fmt;

/// Why a body is no message, for people.
#[derive(Clone, Copy)]
pub struct FaultWords(pub FrameFault);

impl fmt::Display for FaultWords {
    ghost use Rattle.std.specs.Prelude.{Some};
    ghost use Rattle.reason_text.specs.Words.{fault_words};

    ghost output = { λ words. Some (fault_words words.0) };

    fn fmt<W: fmt::Write>(&self, f: &mut fmt::Formatter<W>) -> fmt::Result {
        match self.0.fault() {
            CodecFault::Short(element) => write!(f, "too few bytes for element {element}"),
            CodecFault::BadMti => f.write_str("unknown message type"),
            CodecFault::SecondaryBitmap => f.write_str("secondary bitmap"),
            CodecFault::Unexpected(element) => write!(f, "unexpected element {element}"),
            CodecFault::Missing(element) => write!(f, "missing element {element}"),
            CodecFault::BadLength(element) => write!(f, "bad length of element {element}"),
            CodecFault::BadCharacter(element) => write!(f, "bad character in element {element}"),
            CodecFault::Trailing => f.write_str("bytes after the last element"),
            CodecFault::BadValue(element) => write!(f, "bad value of element {element}"),
            CodecFault::OutOfMemory => f.write_str("out of memory"),
        }
    }
}
