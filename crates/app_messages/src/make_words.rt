use iso_laws::Element;
use iso8583::CodecFault;
use message_text::{MakeFault, element_numbered, name_of};
use std::fmt;

/// Why words make no message of this type, as a line.
#[derive(Clone, Copy)]
pub(crate) struct MakeWords<'a> {
    /// The type.
    pub(crate) kind: &'a str,
    /// The fault.
    pub(crate) fault: MakeFault,
}

impl fmt::Display for MakeWords<'_> {
    fn fmt<W: fmt::Write>(&self, f: &mut fmt::Formatter<W>) -> fmt::Result {
        match self.fault {
            MakeFault::Kind => write!(
                f,
                "make: no type of messages that are taken in: 1100, 1101, 1120, 1121, 1420 or 1421"
            ),
            MakeFault::Word(place) => write!(
                f,
                "make: word {} behind the type is no NAME=VALUE; `switch make --help` lists the names",
                place.saturating_add(1)
            ),
            MakeFault::Twice(element) => { write!(f, "make: {} is given twice", Named(element)) }
            MakeFault::Value(element) => {
                write!(
                    f,
                    "make: {} can't be so: {}",
                    Named(element),
                    format_of(element)
                )
            }
            MakeFault::Body(fault) => put_body_fault(f, self.kind, fault),
            MakeFault::OutOfMemory => write!(f, "memory 1"),
        }
    }
}

// An element by its name and number.
#[derive(Clone, Copy)]
struct Named(Element);

impl fmt::Display for Named {
    fn fmt<W: fmt::Write>(&self, f: &mut fmt::Formatter<W>) -> fmt::Result {
        write!(f, "{} (element {})", name_of(self.0), self.0.number())
    }
}

// Why a type and elements make no message.
fn put_body_fault<W: fmt::Write>(
    f: &mut fmt::Formatter<W>,
    kind: &str,
    fault: CodecFault,
) -> fmt::Result {
    let Some(element) = element_numbered(fault.element()) else {
        return write!(f, "make: {fault}");
    };
    match fault {
        CodecFault::Missing(_) => write!(f, "make: {kind} needs {}", Named(element)),
        CodecFault::Unexpected(_) => write!(f, "make: {kind} takes no {}", Named(element)),
        _ => write!(
            f,
            "make: {} of {kind} can't be so: {}",
            Named(element),
            format_of(element)
        ),
    }
}

// What a value of an element looks like.
fn format_of(element: Element) -> &'static str {
    match element {
        Element::Pan => "12 to 19 digits",
        Element::Processing => "6 digits",
        Element::Amount | Element::OriginalAmount => "up to 12 digits, in minor units",
        Element::Transmission => "10 digits, MMDDhhmmss",
        Element::Stan => "up to 6 digits",
        Element::Stamp => "12 digits, YYMMDDhhmmss",
        Element::Function => "3 digits; of a reversal 400 (full) or 401 (partial)",
        Element::Acquirer => "1 to 11 digits",
        Element::Retrieval => "12 letters, digits or spaces",
        Element::Approval => "6 letters, digits or spaces",
        Element::Action | Element::Currency => "3 digits",
        Element::Terminal => "8 printable characters",
        Element::Original => "type, trace number, date and time, and acquirer: 23 to 33 digits",
        Element::Account => "1 to 28 printable characters",
    }
}
