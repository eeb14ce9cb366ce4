ghost use Rattle.std.specs.Prelude.{◌≡◌, ◌++◌, [], IfOk, codes};
ghost use Rattle.json.specs.Print.{print};
ghost use Rattle.message_text.specs.Lines.{frame_line, reply_line};

use crate::members::{put_frame, put_reply};
use crate::place::Place;
use crate::writing::put_place;
use book_text::JsonWriter;
use iso_shown::CardNumbers;
use issuer_rows::{Frame, ReplyBody};
use std::alloc::{AllocError, Global};

/// The line of a body of a batch: an object of JSON with its place, and its type and elements, or how its fault is answered. It fails
/// only where memory runs out.
pub fn frame_line(
    alloc: Global,
    place: Place,
    cards: CardNumbers,
    frame: &Frame,
) -> Result<Vec<u8>, AllocError>
    ensures { IfOk result (λ line. line.items ≡ frame_line place cards frame.now) }
{
    let mut out = JsonWriter::empty(alloc);
    out.begin_object()?;
    put_place(&mut out, place)?;
    put_frame(&mut out, alloc, cards, frame)?;
    out.end_object()?;
    out.into_line()
}

/// The line of a reply: an object of JSON with its place, and its type and elements, or the fault of a body that is no message. It fails
/// only where memory runs out.
pub fn reply_line(
    alloc: Global,
    place: Place,
    cards: CardNumbers,
    reply: &ReplyBody,
) -> Result<Vec<u8>, AllocError>
    ensures { IfOk result (λ line. line.items ≡ reply_line place cards reply.now) }
{
    let mut out = JsonWriter::empty(alloc);
    out.begin_object()?;
    put_place(&mut out, place)?;
    put_reply(&mut out, alloc, cards, reply)?;
    out.end_object()?;
    out.into_line()
}
