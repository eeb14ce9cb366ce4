//! Bodies and replies as members of an object.

ghost use Rattle.std.specs.Prelude.{OnOk};
ghost use Rattle.book_laws.specs.Text.{Adds};
ghost use Rattle.message_text.specs.Lines.{all_tokens, answer_members, frame_members, message_members, reply_members};

use crate::message_values::type_of_message;
use crate::reply_values::type_of_reply;
use crate::writing::{put_elements, put_fault};
use book_text::JsonWriter;
use iso_shown::CardNumbers;
use iso8583::{Message, Reply};
use issuer_rows::{Frame, ReplyBody};
use std::alloc::{AllocError, Global};

// Writes a message.
fn put_message(
    out: &mut JsonWriter,
    alloc: Global,
    cards: CardNumbers,
    message: &Message,
) -> Result<(), AllocError>
    ensures { OnOk result (Adds out.old out.new (all_tokens (message_members cards message.now))) }
{
    out.text_field("type", type_of_message(message))?;
    put_elements(out, alloc, cards, message)
}

/// Writes the members of a body: those of its message, or its fault. It fails only where memory runs out.
pub fn put_frame(
    out: &mut JsonWriter,
    alloc: Global,
    cards: CardNumbers,
    frame: &Frame,
) -> Result<(), AllocError>
    ensures { OnOk result (Adds out.old out.new (all_tokens (frame_members cards frame.now))) }
{
    match frame {
        Frame::Good(message) => put_message(out, alloc, cards, message),
        Frame::Bad(fault) => put_fault(out, alloc, fault),
    }
}

// Writes a reply to a message.
fn put_answer(
    out: &mut JsonWriter,
    alloc: Global,
    cards: CardNumbers,
    reply: &Reply,
) -> Result<(), AllocError>
    ensures { OnOk result (Adds out.old out.new (all_tokens (answer_members cards reply.now))) }
{
    out.text_field("type", type_of_reply(reply))?;
    put_elements(out, alloc, cards, reply)?;
    Ok(())
}

/// Writes the members of a reply: its own, or the fault of a body that is no message. It fails only where memory runs out.
pub fn put_reply(
    out: &mut JsonWriter,
    alloc: Global,
    cards: CardNumbers,
    reply: &ReplyBody,
) -> Result<(), AllocError>
    ensures { OnOk result (Adds out.old out.new (all_tokens (reply_members cards reply.now))) }
{
    match reply {
        ReplyBody::Reply(reply) => put_answer(out, alloc, cards, reply),
        ReplyBody::Fault(fault) => put_fault(out, alloc, fault),
    }
}
