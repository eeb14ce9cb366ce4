//! Members of an object, as they are written.

ghost use Rattle.std.specs.Prelude.{◌≡◌, ◌∷◌, [], OnOk, IfOk, decimal, option_map, string_bytes};
ghost use Rattle.iso_laws.specs.Elements.{original_text, original_type};
ghost use Rattle.iso_laws.specs.Spelling.{fields};
ghost use Rattle.iso_shown.specs.Masked.{masked};
ghost use Rattle.issuer_rows.specs.FrameFault.{fault_body};
ghost use Rattle.json.specs.Token.{string as string_token};
ghost use Rattle.book_laws.specs.Text.{Adds, tokens_of};
ghost use Rattle.message_text.specs.Lines.{all_tokens, block_members, element_tokens, elements_tokens, fault_element, fault_members, place_members};
ghost use Rattle.message_text.specs.Values.{value_data, without_length};

use crate::element_value::ElementValue;
use crate::has_elements::HasElements;
use crate::names::{elements, name_of};
use crate::place::Place;
use book_text::JsonWriter;
use iso_laws::Element;
use iso_shown::{CardNumbers, MaskedPan};
use iso8583::{Digits, OriginalKind, OriginalRef, Pan};
use issuer_rows::FrameFault;
use std::alloc::{AllocError, Global};

// Writes a card number, masked.
fn put_masked(out: &mut JsonWriter, alloc: Global, pan: Pan) -> Result<(), AllocError>
    ensures { OnOk result (Adds out.old out.new (string_token (masked pan.0) ∷ [])) }
{
    let pan = MaskedPan::new(pan);
    let text = format!(in alloc; "{pan}")?;
    out.string(text.as_str())
}

// The type of an original.
fn type_of_original(kind: OriginalKind, repeat: bool) -> &'static str
    ensures { result.now ≡ original_type kind repeat }
{
    match (kind, repeat) {
        (OriginalKind::Request, false) => "1100",
        (OriginalKind::Request, true) => "1101",
        (OriginalKind::Advice, false) => "1120",
        (OriginalKind::Advice, true) => "1121",
    }
}

// Writes what a reversal takes back.
fn put_original(
    out: &mut JsonWriter,
    alloc: Global,
    original: &OriginalRef,
) -> Result<(), AllocError>
    ensures { OnOk result (Adds out.old out.new (string_token (without_length (original_text original.now)) ∷ [])) }
{
    let kind = type_of_original(original.kind, original.repeat);
    let (stan, stamp) = (
        original.identity.stan.0.as_str(),
        original.identity.stamp.as_str(),
    );
    let acquirer = original.identity.acquirer.as_str();
    let text = format!(in alloc; "{kind}{stan}{stamp}{acquirer}")?;
    out.string(text.as_str())
}

// Writes the value of an element.
fn put_value(
    out: &mut JsonWriter,
    alloc: Global,
    value: &ElementValue<'_>,
) -> Result<(), AllocError>
    ensures { OnOk result (Adds out.old out.new (tokens_of (value_data value.now))) }
{
    match value {
        ElementValue::Masked(pan) => put_masked(out, alloc, *pan),
        ElementValue::Number(number) => out.number(*number),
        ElementValue::Action(action) => out.string(action.digits().as_str()),
        ElementValue::Original(original) => put_original(out, alloc, original),
        ElementValue::Text(text) => out.string(text),
    }
}

// Writes an element with its value, if it has one.
fn put_element(
    out: &mut JsonWriter,
    alloc: Global,
    element: Element,
    value: &Option<ElementValue<'_>>,
) -> Result<(), AllocError>
    ensures { OnOk result (Adds out.old out.new (element_tokens element (option_map value_data value.now))) }
{
    if let Some(value) = value {
        out.key(name_of(element))?;
        put_value(out, alloc, value)?;
    }
    Ok(())
}

/// Writes the elements that are there, in rising number.
pub(crate) fn put_elements<M: HasElements>(
    out: &mut JsonWriter,
    alloc: Global,
    cards: CardNumbers,
    message: &M,
) -> Result<(), AllocError>
    ensures { OnOk result (Adds out.old out.new (elements_tokens cards (fields (M.texts message.now)))) }
{
    let mut rest = elements();
    while let Some((element, more)) = rest.split_first() {
        let value = message.value(cards, *element);
        put_element(out, alloc, *element, &value)?;
        rest = more;
    }
    Ok(())
}

// Writes the number of the element that a fault is of.
fn put_fault_element(out: &mut JsonWriter, element: u8) -> Result<(), AllocError>
    ensures { OnOk result (Adds out.old out.new (all_tokens (fault_element element))) }
{
    if element == 0 {
        return Ok(());
    }
    out.number_field("element", u64::from(element))
}

// How a fault is answered.
fn fault_text(alloc: Global, fault: &FrameFault) -> Result<String, AllocError>
    ensures { IfOk result (λ text. string_bytes text ≡ fault_body fault.now) }
{
    let fault = fault.fault();
    let number = Digits::<2>::of_number(u64::from(fault.number()));
    let element = Digits::<3>::of_number(u64::from(fault.element()));
    let (number, element) = (number.as_str(), element.as_str());
    format!(in alloc; "F{number}{element}")
}

/// Writes the fault of a body that is no message.
pub(crate) fn put_fault(
    out: &mut JsonWriter,
    alloc: Global,
    fault: &FrameFault,
) -> Result<(), AllocError>
    ensures { OnOk result (Adds out.old out.new (all_tokens (fault_members fault.now))) }
{
    let text = fault_text(alloc, fault)?;
    out.text_field("fault", text.as_str())?;
    put_fault_element(out, fault.fault().element())
}

// Writes the block, where there is one.
fn put_block(out: &mut JsonWriter, block: Option<usize>) -> Result<(), AllocError>
    ensures { OnOk result (Adds out.old out.new (all_tokens (block_members block))) }
{
    match block {
        Some(block) => out.number_field("block", block as u64),
        None => Ok(()),
    }
}

/// Writes where it stands in its file.
pub(crate) fn put_place(out: &mut JsonWriter, place: Place) -> Result<(), AllocError>
    ensures { OnOk result (Adds out.old out.new (all_tokens (place_members place))) }
{
    put_block(out, place.block)?;
    out.number_field("index", place.index as u64)
}
