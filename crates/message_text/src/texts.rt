//! The text of an element from what is written of it.

ghost use Rattle.std.specs.Prelude.{◌≡◌, ◌++◌, ◌-◌, ◌≤◌, length, take, IfOk, OnOk};
ghost use Rattle.iso_laws.specs.Elements.{twelve_zeros};
ghost use Rattle.message_text.specs.Texts.{filled, text_of, with_length};

use iso_laws::Element;
use iso8583::Digits;
use std::alloc::{AllocError, Global};

// Appends the value with zeros in front, up to so many characters; nothing where it is empty.
fn put_filled(text: &mut Vec<u8>, size: usize, value: &[u8]) -> Result<(), AllocError>
    requires { size ≤ 12 }
    ensures { OnOk result (text.new.items ≡ text.old.items ++ filled size value.now) }
{
    if value.is_empty() {
        return Ok(());
    }
    let zeros = b"000000000000".as_slice();
    text.extend_from_slice(&zeros[..size.saturating_sub(value.len())])?;
    text.extend_from_slice(value)
}

// Appends type, trace number, and date and time of an original; the length of its acquirer; and the acquirer.
fn put_original(text: &mut Vec<u8>, value: &[u8]) -> Result<(), AllocError>
    ensures { OnOk result (text.new.items ≡ text.old.items ++ with_length value.now) }
{
    if value.len() < 22 {
        return text.extend_from_slice(value);
    }
    let (front, acquirer) = value.split_at(22);
    let length = Digits::<2>::of_number(acquirer.len() as u64);
    text.extend_from_slice(front)?;
    text.extend_from_slice(length.as_slice())?;
    text.extend_from_slice(acquirer)
}

/// The text of an element from the value that a word gives it.
pub(crate) fn text_of(alloc: Global, element: Element, value: &[u8]) -> Result<Vec<u8>, AllocError>
    ensures { IfOk result (λ text. text.items ≡ text_of element value.now) }
{
    let mut text = Vec::new(alloc);
    match element {
        Element::Amount => put_filled(&mut text, 12, value)?,
        Element::Stan => put_filled(&mut text, 6, value)?,
        Element::OriginalAmount => {
            put_filled(&mut text, 12, value)?;
            text.extend_from_slice(b"000000000000")?;
        }
        Element::Original => put_original(&mut text, value)?,
        _ => text.extend_from_slice(value)?,
    }
    Ok(text)
}
