//! Reading the text of one element, and its rule.

ghost use Rattle.std.specs.Prelude.{◌≡◌, ℕ, ◌≤◌, length, Some, None, IfOk, IsTrue, option_map, if◌then◌else◌};
ghost use Rattle.iso8583.specs.Number.{number_of};
ghost use Rattle.iso_codec.specs.Texts.{test_of};
ghost use Rattle.iso_laws.specs.Elements.{shape_of, HasShape};
ghost use Rattle.iso_laws.specs.Spelling.{is_set};
ghost use Rattle.iso_laws.specs.Reading.{Gives, bytes_at, is_length, shaped_at, element_at, optional_at, scope_at, verdict_at, rule_at};

use crate::bitmap::is_set;
use crate::value_test::{has_value, is_of_class, is_text};
use iso_laws::{Element, Rule, Shape};
use iso8583::{CodecFault, is_digits, number_of};

/// The next bytes, for the element of this number, and those after them.
pub(crate) fn bytes_at(number: u8, size: usize, bytes: &[u8]) -> Result<(&[u8], &[u8]), CodecFault>
    ensures gives { Gives (λ x. (x.0.now, x.1.now)) result (bytes_at number size bytes.now) }
    ensures size { IfOk result (λ x. length x.0.now ≡ size) }
{
    if bytes.len() < size {
        return Err(CodecFault::Short(number));
    }
    Ok(bytes.split_at(size))
}

/// The length that two digits say, if it is within the bounds.
fn length_in(min: usize, max: usize, digits: &[u8]) -> Option<usize>
    requires { length digits.now ≡ 2 }
    ensures { result ≡ (if is_length min max digits.now then Some (number_of digits.now) else None) }
{
    if !is_digits(digits) {
        return None;
    }
    let length = number_of(digits) as usize;
    if min <= length && length <= max {
        Some(length)
    } else {
        None
    }
}

/// As many bytes as the shape has, and those after them.
#[tactic(auto, unfolding(iso_laws::specs::Reading::shaped_at))]
fn shaped_at(number: u8, shape: Shape, bytes: &[u8]) -> Result<(&[u8], &[u8]), CodecFault>
    ensures gives { Gives (λ x. (x.0.now, x.1.now)) result (shaped_at number shape bytes.now) }
    ensures shape { IfOk result (λ x. HasShape shape x.0.now) }
{
    match shape {
        Shape::Fixed(size) => bytes_at(number, size, bytes),
        Shape::UpTo(min, max) => {
            let (digits, rest) = bytes_at(number, 2, bytes)?;
            let Some(length) = length_in(min, max, digits) else {
                return Err(CodecFault::BadLength(number));
            };
            bytes_at(number, length, rest)
        }
    }
}

/// The test of a text that is as long as the element's: its class, then its value.
#[inline(always)]
fn text_test(element: Element, text: &[u8]) -> Result<(), CodecFault>
    requires { HasShape (shape_of element) text.now }
    ensures { Gives (λ _. tt) result (test_of element text.now) }
{
    if !is_of_class(element.class(), text) {
        return Err(CodecFault::BadCharacter(element.number()));
    }
    if !has_value(element, text) {
        return Err(CodecFault::BadValue(element.number()));
    }
    Ok(())
}

/// The text of the element, and the bytes after it.
#[inline(always)]
#[tactic(auto, unfolding(iso_laws::specs::Reading::element_at))]
pub(crate) fn element_at(element: Element, bytes: &[u8]) -> Result<(&[u8], &[u8]), CodecFault>
    ensures gives { Gives (λ x. (x.0.now, x.1.now)) result (element_at element bytes.now) }
{
    let (text, rest) = shaped_at(element.number(), element.shape(), bytes)?;
    text_test(element, text)?;
    Ok((text, rest))
}

/// The next `N` bytes, for the element of this number, and those after them.
#[inline(always)]
#[tactic(auto, unfolding(iso_laws::specs::Reading::shaped_at))]
fn chunk_at<const N: usize>(number: u8, bytes: &[u8]) -> Result<(&[u8; N], &[u8]), CodecFault>
    ensures gives { Gives (λ x. (x.0.now, x.1.now)) result (shaped_at number (Shape.Fixed N) bytes.now) }
    ensures size { IfOk result (λ x. length x.0.now ≡ N) }
{
    let Some((text, rest)) = bytes.split_first_chunk::<N>() else {
        return Err(CodecFault::Short(number));
    };
    Ok((text, rest))
}

/// The text of an element of `N` characters, and the bytes after it.
#[inline(always)]
#[tactic(auto, unfolding(iso_laws::specs::Reading::element_at))]
pub(crate) fn fixed_at<const N: usize>(
    element: Element,
    bytes: &[u8],
) -> Result<(&[u8; N], &[u8]), CodecFault>
    requires { shape_of element ≡ Shape.Fixed N }
    ensures gives { Gives (λ x. (x.0.now, x.1.now)) result (element_at element bytes.now) }
{
    let (text, rest) = chunk_at(element.number(), bytes)?;
    text_test(element, text)?;
    Ok((text, rest))
}

/// The same for an element that may be absent.
#[inline(always)]
#[tactic(auto, unfolding(iso_laws::specs::Reading::optional_at))]
pub(crate) fn optional_fixed_at<const N: usize>(
    present: bool,
    element: Element,
    bytes: &[u8],
) -> Result<(Option<&[u8; N]>, &[u8]), CodecFault>
    requires { shape_of element ≡ Shape.Fixed N }
    ensures gives { Gives (λ x. (option_map (λ t. t.now) x.0, x.1.now)) result (optional_at present element bytes.now) }
{
    if !present {
        return Ok((None, bytes));
    }
    let (text, rest) = fixed_at(element, bytes)?;
    Ok((Some(text), rest))
}

/// The same for an element whose length may vary.
#[inline(always)]
#[tactic(auto, unfolding(iso_laws::specs::Reading::optional_at))]
pub(crate) fn optional_at(
    present: bool,
    element: Element,
    bytes: &[u8],
) -> Result<(Option<&[u8]>, &[u8]), CodecFault>
    ensures gives { Gives (λ x. (option_map (λ t. t.now) x.0, x.1.now)) result (optional_at present element bytes.now) }
{
    if !present {
        return Ok((None, bytes));
    }
    let (text, rest) = element_at(element, bytes)?;
    Ok((Some(text), rest))
}

/// The function code of a reversal, beside element 30 or without it.
#[tactic(auto, unfolding(iso_laws::specs::Reading::scope_at))]
fn scope_at(amount: bool, text: &[u8]) -> Result<(), CodecFault>
    ensures { Gives (λ _. tt) result (scope_at amount text.now) }
{
    if is_text(text, b"400") {
        if amount {
            return Err(CodecFault::Unexpected(30));
        }
        return Ok(());
    }
    if !is_text(text, b"401") {
        return Err(CodecFault::BadValue(24));
    }
    if amount {
        Ok(())
    } else {
        Err(CodecFault::Missing(30))
    }
}

/// The action code of a reply to a request, beside element 38 or without it.
#[tactic(auto, unfolding(iso_laws::specs::Reading::verdict_at))]
fn verdict_at(approval: bool, text: &[u8]) -> Result<(), CodecFault>
    ensures { Gives (λ _. tt) result (verdict_at approval text.now) }
{
    if is_text(text, b"000") {
        if approval {
            return Ok(());
        }
        return Err(CodecFault::Missing(38));
    }
    if approval {
        Err(CodecFault::Unexpected(38))
    } else {
        Ok(())
    }
}

/// What the rule finds in the text of an element, if it is there.
#[inline(always)]
pub(crate) fn rule_at(rule: Rule, bitmap: u128, text: Option<&[u8; 3]>) -> Result<(), CodecFault>
    ensures { Gives (λ _. tt) result (rule_at rule bitmap (option_map (λ t. t.now) text.entry)) }
{
    let Some(text) = text else {
        return Ok(());
    };
    match rule {
        Rule::Free => Ok(()),
        Rule::Scope => scope_at(is_set(bitmap, 30), text),
        Rule::Verdict => verdict_at(is_set(bitmap, 38), text),
    }
}
