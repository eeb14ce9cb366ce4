//! Reading the texts of all elements of a message or a reply.

ghost use Rattle.std.specs.Prelude.{◌≡◌, Ok, IfOk};
ghost use Rattle.iso_codec.specs.Sides.{types_of};
ghost use Rattle.iso_codec.specs.Texts.{texts_of, read_parts, function_rule, action_rule};
ghost use Rattle.iso_laws.specs.Elements.{parts_of};
ghost use Rattle.iso_laws.specs.Forms.{AreTextsOf};
ghost use Rattle.iso_laws.specs.Spelling.{fields};
ghost use Rattle.iso_laws.specs.Reading.{Gives, presence_at, fields_at, whole_at, reading};

use crate::bitmap::is_set;
use crate::fields::{element_at, fixed_at, optional_at, optional_fixed_at, rule_at};
use crate::header::header_at;
use crate::side::Side;
use iso_laws::{Element, Mti, Rule};
use iso8583::CodecFault;

/// The texts of all elements, and the bytes after them.
#[derive(Clone, Copy)]
pub(crate) struct Texts<'a> {
    pub(crate) pan: &'a [u8],
    pub(crate) processing: &'a [u8; 6],
    pub(crate) amount: &'a [u8; 12],
    pub(crate) transmission: &'a [u8; 10],
    pub(crate) stan: &'a [u8; 6],
    pub(crate) stamp: &'a [u8; 12],
    pub(crate) function: Option<&'a [u8; 3]>,
    pub(crate) original_amount: Option<&'a [u8; 24]>,
    pub(crate) acquirer: &'a [u8],
    pub(crate) retrieval: Option<&'a [u8; 12]>,
    pub(crate) approval: Option<&'a [u8; 6]>,
    pub(crate) action: Option<&'a [u8; 3]>,
    pub(crate) terminal: &'a [u8; 8],
    pub(crate) currency: &'a [u8; 3],
    pub(crate) original: Option<&'a [u8]>,
    pub(crate) account: Option<&'a [u8]>,
    rest: &'a [u8],
}

/// The rule of element 24.
fn function_rule(mti: Mti) -> Rule
    ensures { result ≡ function_rule mti }
{
    match mti {
        Mti::Reversal | Mti::ReversalRepeat => Rule::Scope,
        _ => Rule::Free,
    }
}

/// The rule of element 39.
fn action_rule(mti: Mti) -> Rule
    ensures { result ≡ action_rule mti }
{
    match mti {
        Mti::RequestReply => Rule::Verdict,
        _ => Rule::Free,
    }
}

/// Reads the elements from the left: those that each type has, and those that the bitmap says are there.
#[tactic(auto, unfolding(iso_laws::specs::Reading::optional_at, iso_laws::specs::Reading::fields_at))]
fn fields_at(mti: Mti, bitmap: u128, bytes: &[u8]) -> Result<Texts<'_>, CodecFault>
    ensures { Gives (λ x. (fields (texts_of x), x.rest.now)) result (fields_at bitmap (read_parts mti) bytes.now) }
{
    let (pan, rest) = element_at(Element::Pan, bytes)?;
    let (processing, rest) = fixed_at(Element::Processing, rest)?;
    let (amount, rest) = fixed_at(Element::Amount, rest)?;
    let (transmission, rest) = fixed_at(Element::Transmission, rest)?;
    let (stan, rest) = fixed_at(Element::Stan, rest)?;
    let (stamp, rest) = fixed_at(Element::Stamp, rest)?;
    let (function, rest) = optional_fixed_at(is_set(bitmap, 24), Element::Function, rest)?;
    rule_at(function_rule(mti), bitmap, function)?;
    let (original_amount, rest) = optional_fixed_at(
        is_set(bitmap, 30),
        Element::OriginalAmount,
        rest,
    )?;
    let (acquirer, rest) = element_at(Element::Acquirer, rest)?;
    let (retrieval, rest) = optional_fixed_at(is_set(bitmap, 37), Element::Retrieval, rest)?;
    let (approval, rest) = optional_fixed_at(is_set(bitmap, 38), Element::Approval, rest)?;
    let (action, rest) = optional_fixed_at(is_set(bitmap, 39), Element::Action, rest)?;
    rule_at(action_rule(mti), bitmap, action)?;
    let (terminal, rest) = fixed_at(Element::Terminal, rest)?;
    let (currency, rest) = fixed_at(Element::Currency, rest)?;
    let (original, rest) = optional_at(is_set(bitmap, 56), Element::Original, rest)?;
    let (account, rest) = optional_at(is_set(bitmap, 102), Element::Account, rest)?;
    Ok(Texts {
        pan,
        processing,
        amount,
        transmission,
        stan,
        stamp,
        function,
        original_amount,
        acquirer,
        retrieval,
        approval,
        action,
        terminal,
        currency,
        original,
        account,
        rest,
    })
}

/// The elements that all of the bytes are, behind the type and a bitmap without fault.
#[tactic(auto, using(crate::proofs::Uniform::read_is), unfolding(iso_laws::specs::Reading::whole_at))]
fn elements_at(mti: Mti, bitmap: u128, bytes: &[u8]) -> Result<Texts<'_>, CodecFault>
    requires { presence_at (parts_of mti) bitmap ≡ Ok tt }
    ensures { Gives (λ x. fields (texts_of x)) result (whole_at bitmap (parts_of mti) bytes.now) }
{
    let texts = fields_at(mti, bitmap, bytes)?;
    if !texts.rest.is_empty() {
        return Err(CodecFault::Trailing);
    }
    Ok(texts)
}

/// The type and the elements that all of the bytes are.
#[tactic(auto, unfolding(iso_laws::specs::Reading::reading))]
pub(crate) fn texts_at(side: Side, bytes: &[u8]) -> Result<(Mti, Texts<'_>), CodecFault>
    ensures gives { Gives (λ x. (x.0, fields (texts_of x.1))) result (reading (types_of side) bytes.now) }
    ensures texts { IfOk result (λ x. AreTextsOf (types_of side) x.0 (texts_of x.1)) }
{
    let (mti, bitmap, rest) = header_at(side, bytes)?;
    let texts = elements_at(mti, bitmap, rest)?;
    Ok((mti, texts))
}
