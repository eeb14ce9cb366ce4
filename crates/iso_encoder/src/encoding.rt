ghost use Rattle.std.specs.Prelude.{◌≡◌, ℕ, ◌+◌, ◌-◌, ◌^◌, ◌≤◌, ◌<◌, [], ◌∷◌, ◌++◌, length, is_some, vec_len, vec_capacity, OnOk, OnErr, IfErr, IsOk};
ghost use Rattle.arrayvec.specs.ArrayVec.{array_vec_len};
ghost use Rattle.iso_encoder.specs.Writing.{bit_if, written_texts, Writes};
ghost use Rattle.iso_laws.specs.Elements.{element_number, elements, original_text, original_type};
ghost use Rattle.iso_laws.specs.Types.{mti_text};
ghost use Rattle.iso_laws.specs.Spelling.{fields, bitmap_of, bitmap_bytes, spelling};
ghost use Rattle.iso_laws.specs.Messages.{Spells, message_spelling};
ghost use Rattle.iso_laws.specs.Replies.{SpellsReply, reply_spelling};

use crate::parts::{Parts, parts_of, reply_parts};
use crate::writer::{Line, ROOM, put, put_field};
use iso_laws::{COMMON, Element, Mti};
use iso8583::{CodecFault, Digits, Message, OriginalKind, OriginalRef, Reply};

/// The text of a type: its four digits.
pub fn mti_text(mti: Mti) -> &'static [u8]
    ensures text { result.now ≡ mti_text mti }
    ensures len { length result.now ≡ 4 }
{
    match mti {
        Mti::Request => b"1100".as_slice(),
        Mti::RequestRepeat => b"1101".as_slice(),
        Mti::RequestReply => b"1110".as_slice(),
        Mti::Advice => b"1120".as_slice(),
        Mti::AdviceRepeat => b"1121".as_slice(),
        Mti::AdviceReply => b"1130".as_slice(),
        Mti::Reversal => b"1420".as_slice(),
        Mti::ReversalRepeat => b"1421".as_slice(),
        Mti::ReversalReply => b"1430".as_slice(),
    }
}

/// The bit of an element, if it is there.
fn bit<T>(part: &Option<T>, element: Element) -> u128
    ensures value { result ≡ bit_if (is_some part.now) (2 ^ (128 - element_number element)) }
    ensures bound { result ≤ 2 ^ (128 - element_number element) }
{
    if part.is_some() { element.bit() } else { 0 }
}

/// The bitmap: the elements of every message and reply, and those that are there.
fn bitmap_of(parts: &Parts) -> u128
    ensures value { result ≡ bitmap_of (fields (written_texts parts.now)) }
    ensures fits { result < 2 ^ 127 }
{
    COMMON
        + bit(&parts.function, Element::Function)
        + bit(&parts.original_amount, Element::OriginalAmount)
        + bit(&parts.transaction.retrieval, Element::Retrieval)
        + bit(&parts.approval, Element::Approval)
        + bit(&parts.action, Element::Action)
        + bit(&parts.original, Element::Original)
        + bit(&parts.account, Element::Account)
}

/// Appends the bytes of the bitmap: eight, or sixteen with bit 1 set where an element from 65 on is there.
#[tactic(auto, unfolding(iso_laws::specs::Spelling::bitmap_bytes))]
fn put_bitmap(out: &mut Line, bitmap: u128)
    requires fits { bitmap < 2 ^ 127 }
    requires room { array_vec_len out.old + 16 ≤ ROOM }
    ensures items { out.new.items ≡ out.old.items ++ bitmap_bytes bitmap }
    ensures len { array_vec_len out.new ≤ array_vec_len out.old + 16 }
{
    let primary = (bitmap >> 64) as u64;
    let secondary = (bitmap % (1 << 64)) as u64;
    if secondary == 0 {
        put(out, &primary.to_be_bytes());
    } else {
        put(out, &(BIT_1 + primary).to_be_bytes());
        put(out, &secondary.to_be_bytes());
    }
}

/// Bit 1 of the primary bitmap: the secondary one follows.
const BIT_1: u64 = 1 << 63;

/// Appends the elements that all begin with.
fn put_front(out: &mut Line, parts: &Parts)
    requires { array_vec_len out.old + 77 ≤ ROOM }
    ensures { Writes parts.now (Element.Pan ∷ Element.Processing ∷ Element.Amount ∷ Element.Transmission ∷ Element.Stan ∷ Element.Stamp ∷ []) out.old out.new 77 }
{
    let transaction = parts.transaction;
    put_field(out, Element::Pan, transaction.pan.0.as_slice());
    put_field(
        out,
        Element::Processing,
        transaction.processing.0.as_slice(),
    );
    put_field(out, Element::Amount, transaction.amount.digits().as_slice());
    put_field(
        out,
        Element::Transmission,
        transaction.transmission.0.as_slice(),
    );
    put_field(out, Element::Stan, transaction.stan.0.as_slice());
    put_field(out, Element::Stamp, transaction.stamp.as_slice());
}

/// Appends element 24, if it is there.
fn put_function(out: &mut Line, parts: &Parts)
    requires { array_vec_len out.old + 5 ≤ ROOM }
    ensures { Writes parts.now (Element.Function ∷ []) out.old out.new 5 }
{
    if let Some(function) = &parts.function {
        put_field(out, Element::Function, function.as_slice());
    }
}

/// Appends element 30, if it is there.
fn put_original_amount(out: &mut Line, parts: &Parts)
    requires { array_vec_len out.old + 26 ≤ ROOM }
    ensures { Writes parts.now (Element.OriginalAmount ∷ []) out.old out.new 26 }
{
    if let Some(amount) = &parts.original_amount {
        put(out, amount.digits().as_slice());
        put(out, b"000000000000");
    }
}

/// Appends element 32, and 37 if it is there.
fn put_references(out: &mut Line, parts: &Parts)
    requires { array_vec_len out.old + 27 ≤ ROOM }
    ensures { Writes parts.now (Element.Acquirer ∷ Element.Retrieval ∷ []) out.old out.new 27 }
{
    let transaction = parts.transaction;
    put_field(out, Element::Acquirer, transaction.acquirer.0.as_slice());
    if let Some(retrieval) = &transaction.retrieval {
        put_field(out, Element::Retrieval, retrieval.0.as_slice());
    }
}

/// Appends element 38, if it is there.
fn put_approval(out: &mut Line, parts: &Parts)
    requires { array_vec_len out.old + 8 ≤ ROOM }
    ensures { Writes parts.now (Element.Approval ∷ []) out.old out.new 8 }
{
    if let Some(approval) = &parts.approval {
        put_field(out, Element::Approval, approval.0.as_slice());
    }
}

/// Appends element 39, if it is there.
fn put_action(out: &mut Line, parts: &Parts)
    requires { array_vec_len out.old + 5 ≤ ROOM }
    ensures { Writes parts.now (Element.Action ∷ []) out.old out.new 5 }
{
    if let Some(action) = &parts.action {
        put_field(out, Element::Action, action.as_slice());
    }
}

/// Appends elements 41 and 49.
fn put_ends(out: &mut Line, parts: &Parts)
    requires { array_vec_len out.old + 15 ≤ ROOM }
    ensures { Writes parts.now (Element.Terminal ∷ Element.Currency ∷ []) out.old out.new 15 }
{
    let transaction = parts.transaction;
    put_field(out, Element::Terminal, transaction.terminal.0.as_slice());
    put_field(out, Element::Currency, transaction.currency.0.as_slice());
}

/// The type of an original.
fn original_type(kind: &OriginalKind, repeat: bool) -> &'static [u8]
    ensures text { result.now ≡ original_type kind.now repeat }
    ensures len { length result.now ≡ 4 }
{
    match kind {
        OriginalKind::Request => {
            if repeat {
                b"1101".as_slice()
            } else {
                b"1100".as_slice()
            }
        }
        OriginalKind::Advice => {
            if repeat {
                b"1121".as_slice()
            } else {
                b"1120".as_slice()
            }
        }
    }
}

/// Appends the text of a reference, without its length.
#[tactic(auto, unfolding(iso_laws::specs::Elements::original_text))]
fn put_reference(out: &mut Line, original: &OriginalRef)
    requires { array_vec_len out.old + 35 ≤ ROOM }
    ensures items { out.new.items ≡ out.old.items ++ original_text original.now }
    ensures size { length (original_text original.now) ≡ 24 + length original.now.identity.acquirer.0 }
    ensures len { array_vec_len out.new ≤ array_vec_len out.old + 35 }
{
    let acquirer = original.identity.acquirer.0.as_slice();
    put(out, original_type(&original.kind, original.repeat));
    put(out, original.identity.stan.0.as_slice());
    put(out, original.identity.stamp.as_slice());
    put(
        out,
        Digits::<2>::of_number(acquirer.len() as u64).as_slice(),
    );
    put(out, acquirer);
}

/// Appends element 56, if it is there.
fn put_original(out: &mut Line, parts: &Parts)
    requires { array_vec_len out.old + 37 ≤ ROOM }
    ensures { Writes parts.now (Element.Original ∷ []) out.old out.new 37 }
{
    if let Some(original) = &parts.original {
        let size = original.identity.acquirer.0.as_slice().len() as u64 + 24;
        put(out, Digits::<2>::of_number(size).as_slice());
        put_reference(out, original);
    }
}

/// Appends element 102, if it is there.
fn put_account(out: &mut Line, parts: &Parts)
    requires { array_vec_len out.old + 30 ≤ ROOM }
    ensures { Writes parts.now (Element.Account ∷ []) out.old out.new 30 }
{
    if let Some(account) = &parts.account {
        put_field(out, Element::Account, account.as_slice());
    }
}

/// Appends the elements.
fn put_elements(out: &mut Line, parts: &Parts)
    requires { array_vec_len out.old + 230 ≤ ROOM }
    ensures { Writes parts.now elements out.old out.new 230 }
{
    put_front(out, parts);
    put_function(out, parts);
    put_original_amount(out, parts);
    put_references(out, parts);
    put_approval(out, parts);
    put_action(out, parts);
    put_ends(out, parts);
    put_original(out, parts);
    put_account(out, parts);
}

/// Appends the spelling. It is written into a line of its own first, which has room for it. The only fault is `OutOfMemory`, and then
/// nothing is appended.
fn put_spelling(out: &mut Vec<u8>, parts: &Parts) -> Result<(), CodecFault>
    ensures ok { OnOk result (out.new.items ≡ out.old.items ++ spelling parts.now.mti (fields (written_texts parts.now))) }
    ensures memory { IfErr result (λ e. e ≡ CodecFault.OutOfMemory) }
    ensures err { OnErr result (out.new.items ≡ out.old.items) }
    ensures room { vec_len out.old + ROOM ≤ vec_capacity out.old → IsOk result }
    ensures length { OnOk result (vec_len out.new ≤ vec_len out.old + ROOM) }
{
    let mut line = Line::new();
    put(&mut line, mti_text(parts.mti));
    put_bitmap(&mut line, bitmap_of(parts));
    put_elements(&mut line, parts);
    if out.extend_from_slice(line.as_slice()).is_err() {
        return Err(CodecFault::OutOfMemory);
    }
    Ok(())
}

/// Appends the one spelling of the message (ISO 8583:1993: 1100, 1101, 1120, 1121, 1420 or 1421). The only fault is `OutOfMemory`, and
/// then nothing is appended.
pub fn encode(message: &Message, out: &mut Vec<u8>) -> Result<(), CodecFault>
    ensures ok { OnOk result (out.new.items ≡ out.old.items ++ message_spelling message.now) }
    ensures memory { IfErr result (λ e. e ≡ CodecFault.OutOfMemory) }
    ensures err { OnErr result (out.new.items ≡ out.old.items) }
    // Room for the longest message is enough.
    ensures room { vec_len out.old + ROOM ≤ vec_capacity out.old → IsOk result }
    // No message is longer.
    ensures length { OnOk result (vec_len out.new ≤ vec_len out.old + ROOM) }
    // So decoding what is appended gives the message again.
    ensures spells { Spells (message_spelling message.now) message.now }
{
    let parts = parts_of(message);
    put_spelling(out, &parts)
}

/// Appends the one spelling of the reply (ISO 8583:1993: 1110, 1130 or 1430). The only fault is `OutOfMemory`, and then nothing is
/// appended.
pub fn encode_reply(reply: &Reply, out: &mut Vec<u8>) -> Result<(), CodecFault>
    ensures ok { OnOk result (out.new.items ≡ out.old.items ++ reply_spelling reply.now) }
    ensures memory { IfErr result (λ e. e ≡ CodecFault.OutOfMemory) }
    ensures err { OnErr result (out.new.items ≡ out.old.items) }
    // Room for the longest reply is enough.
    ensures room { vec_len out.old + ROOM ≤ vec_capacity out.old → IsOk result }
    // No reply is longer.
    ensures length { OnOk result (vec_len out.new ≤ vec_len out.old + ROOM) }
    // So decoding what is appended gives the reply again.
    ensures spells { SpellsReply (reply_spelling reply.now) reply.now }
{
    let parts = reply_parts(reply);
    put_spelling(out, &parts)
}
