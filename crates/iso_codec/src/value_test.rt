//! Classes of characters and value tests of the elements.

ghost use Rattle.std.specs.Prelude.{◌≡◌, ◌↔◌, ℕ, ◌≤◌, length, IsTrue};
ghost use Rattle.std.specs.Str.{bytes_eq};
ghost use Rattle.iso8583.specs.Class.{IsDigits};
ghost use Rattle.iso_laws.specs.Elements.{shape_of, class_of, is_of_class, is_original_amount, is_original_type, is_original, has_value, HasShape, IsText};

use iso_laws::{Class, Element, Shape};
use iso8583::{is_alphanumeric, is_digits, is_local_stamp, is_printable, number_of};

/// Whether the text is this one.
pub(crate) fn is_text(text: &[u8], other: &[u8]) -> bool
    ensures { result ≡ bytes_eq text.now other.now }
{
    text == other
}

/// Whether the text is of this class alone.
pub(crate) fn is_of_class(class: Class, text: &[u8]) -> bool
    ensures { result ≡ is_of_class class text.now }
{
    match class {
        Class::Digits => is_digits(text),
        Class::Alphanumeric => is_alphanumeric(text),
        Class::Printable => is_printable(text),
    }
}

/// Whether the last twelve digits are zeros.
#[tactic(auto, unfolding(iso_laws::specs::Elements::is_original_amount))]
fn is_original_amount(text: &[u8]) -> bool
    requires { length text.now ≡ 24 }
    ensures { result ≡ is_original_amount text.now }
{
    let (_, zeros) = text.split_at(12);
    is_text(zeros, b"000000000000")
}

/// Whether the text is the type of a request or of an advice.
#[tactic(auto, unfolding(iso_laws::specs::Elements::is_original_type))]
fn is_original_type(text: &[u8]) -> bool
    ensures { result ≡ is_original_type text.now }
{
    is_text(text, b"1100")
        || is_text(text, b"1101")
        || is_text(text, b"1120")
        || is_text(text, b"1121")
}

/// Whether the parts of element 56 are such: its type, its date and time, and its inner length.
#[tactic(auto, unfolding(iso_laws::specs::Elements::is_original))]
fn is_original(text: &[u8]) -> bool
    requires low { 25 ≤ length text.now }
    requires high { length text.now ≤ 35 }
    requires digits { IsDigits text.now }
    ensures { result ≡ is_original text.now }
{
    is_original_type(&text[..4])
        && is_local_stamp(&text[10..22])
        && number_of(&text[22..24]) == text.len() as u64 - 24
}

/// Whether a text of its shape and class passes the element's value test.
#[inline(always)]
pub(crate) fn has_value(element: Element, text: &[u8]) -> bool
    requires shape { HasShape (shape_of element) text.now }
    requires class { IsTrue (is_of_class (class_of element) text.now) }
    ensures { result ≡ has_value element text.now }
{
    match element {
        Element::Stamp => is_local_stamp(text),
        Element::OriginalAmount => is_original_amount(text),
        Element::Original => is_original(text),
        _ => true,
    }
}

// Whether the text is as long as the shape says.
fn has_shape(shape: Shape, text: &[u8]) -> bool
    ensures { IsTrue result ↔ HasShape shape text.now }
{
    match shape {
        Shape::Fixed(size) => text.len() == size,
        Shape::UpTo(min, max) => min <= text.len() && text.len() <= max,
    }
}

/// Whether the text is one that the element can have: of its length, of its characters, and a value.
pub fn is_text_of(element: Element, text: &[u8]) -> bool
    ensures { IsTrue result ↔ IsText element text.now }
{
    has_shape(element.shape(), text)
        && is_of_class(element.class(), text)
        && has_value(element, text)
}
