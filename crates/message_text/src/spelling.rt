ghost use Rattle.std.specs.Prelude.{◌≡◌, ◌++◌, IfOk, OnOk};
ghost use Rattle.std.specs.List.{flat_map};
ghost use Rattle.iso_laws.specs.Spelling.{field, fields, spelling};
ghost use Rattle.message_text.specs.Givens.{texts_of};

use crate::bitmap::{bitmap_of, put_bitmap};
use crate::given::{Given, text_in};
use crate::names::elements;
use iso_codec::mti_text;
use iso_laws::{Element, Mti, Shape};
use iso8583::Digits;
use std::alloc::{AllocError, Global};

// Appends the spelling of an element.
fn put_field(out: &mut Vec<u8>, element: Element, text: &[u8]) -> Result<(), AllocError>
    ensures { OnOk result (out.new.items ≡ out.old.items ++ field (element, text.now)) }
{
    if let Shape::UpTo(_, _) = element.shape() {
        let length = Digits::<2>::of_number(text.len() as u64);
        out.extend_from_slice(length.as_slice())?;
    }
    out.extend_from_slice(text)
}

// Appends the elements that are given, in rising number.
fn put_fields(out: &mut Vec<u8>, givens: &[Given]) -> Result<(), AllocError>
    ensures { OnOk result (out.new.items ≡ out.old.items ++ flat_map field (fields (texts_of givens.now))) }
{
    let mut rest = elements();
    while let Some((element, more)) = rest.split_first() {
        if let Some(text) = text_in(givens, *element) {
            put_field(out, *element, text)?;
        }
        rest = more;
    }
    Ok(())
}

/// The spelling of a type with the elements that are given.
pub(crate) fn spelling_of(alloc: Global, mti: Mti, givens: &[Given]) -> Result<Vec<u8>, AllocError>
    ensures { IfOk result (λ bytes. bytes.items ≡ spelling mti (fields (texts_of givens.now))) }
{
    let mut bytes = Vec::new(alloc);
    bytes.extend_from_slice(mti_text(mti))?;
    put_bitmap(&mut bytes, bitmap_of(givens))?;
    put_fields(&mut bytes, givens)?;
    Ok(bytes)
}
