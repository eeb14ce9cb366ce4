//! Files as lines.

ghost use Rattle.std.specs.Prelude.{◌≡◌, ◌<◌, ◌≤◌, ◌++◌, ◌∷◌, [], IfOk, OnOk, codes, decimal, length};
ghost use Rattle.std.specs.List.{All};
ghost use Rattle.file_blocks.specs.BlockFiles.{frames_of, replies_of};
ghost use Rattle.app_messages.specs.Lines.{block_head, block_lines, frame_line, frame_lines, reply_block_lines, reply_line, reply_lines};

use app_words::Form;
use file_listing::{frame_line, reply_line};
use issuer_rows::{Frame, ReplyBody};
use itoa::Buffer;
use message_text::{Place, frame_line as json_of_frame, reply_line as json_of_reply};
use std::alloc::{AllocError, Global};

// The line of a body.
fn line_of_frame(
    alloc: Global,
    form: Form,
    place: Place,
    frame: &Frame,
) -> Result<Vec<u8>, AllocError>
    requires { place.index < 65536 }
    ensures { IfOk result (λ line. line.items ≡ frame_line form place.block place.index frame.now) }
{
    match form {
        Form::Lines => {
            let mut line = frame_line(alloc, place.index as u32, frame)?;
            line.push(b'\n')?;
            Ok(line)
        }
        Form::Json(cards) => json_of_frame(alloc, place, cards, frame),
    }
}

// The line of a reply.
fn line_of_reply(
    alloc: Global,
    form: Form,
    place: Place,
    reply: &ReplyBody,
) -> Result<Vec<u8>, AllocError>
    requires { place.index < 65536 }
    ensures { IfOk result (λ line. line.items ≡ reply_line form place.block place.index reply.now) }
{
    match form {
        Form::Lines => {
            let mut line = reply_line(alloc, place.index as u32, reply)?;
            line.push(b'\n')?;
            Ok(line)
        }
        Form::Json(cards) => json_of_reply(alloc, place, cards, reply),
    }
}

/// A line for each body of a batch, or of a block.
pub(crate) fn lines_of_frames(
    alloc: Global,
    form: Form,
    block: Option<usize>,
    frames: &[Frame],
) -> Result<Vec<u8>, AllocError>
    requires { length frames.now ≤ 65536 }
    ensures { IfOk result (λ text. text.items ≡ frame_lines form block 0 frames.now) }
{
    let mut text = Vec::new(alloc);
    for index in 0..frames.len() {
        let place = Place { block, index };
        let line = line_of_frame(alloc, form, place, &frames[index])?;
        text.extend_from_slice(&line)?;
    }
    Ok(text)
}

/// A line for each reply, or for each of a block.
pub(crate) fn lines_of_replies(
    alloc: Global,
    form: Form,
    block: Option<usize>,
    replies: &[ReplyBody],
) -> Result<Vec<u8>, AllocError>
    requires { length replies.now ≤ 65536 }
    ensures { IfOk result (λ text. text.items ≡ reply_lines form block 0 replies.now) }
{
    let mut text = Vec::new(alloc);
    for index in 0..replies.len() {
        let place = Place { block, index };
        let line = line_of_reply(alloc, form, place, &replies[index])?;
        text.extend_from_slice(&line)?;
    }
    Ok(text)
}

/// The lines of blocks of bodies, one after another.
pub(crate) fn lines_of_blocks(
    alloc: Global,
    form: Form,
    blocks: &[Vec<Frame>],
) -> Result<Vec<u8>, AllocError>
    requires count { length blocks.now ≤ 1000 }
    requires each { All (λ block. length block.items ≤ 65536) blocks.now }
    ensures { IfOk result (λ text. text.items ≡ block_lines form 0 (frames_of blocks.now)) }
{
    let mut text = Vec::new(alloc);
    let mut rest = blocks;
    let mut number = 0usize;
    while let Some((block, more)) = rest.split_first() {
        put_block_head(&mut text, form, number)?;
        text.extend_from_slice(&lines_of_frames(alloc, form, Some(number), block)?)?;
        number += 1;
        rest = more;
    }
    Ok(text)
}

/// The lines of blocks of replies, one after another.
pub(crate) fn lines_of_reply_blocks(
    alloc: Global,
    form: Form,
    blocks: &[Vec<ReplyBody>],
) -> Result<Vec<u8>, AllocError>
    requires count { length blocks.now ≤ 1000 }
    requires each { All (λ block. length block.items ≤ 65536) blocks.now }
    ensures { IfOk result (λ text. text.items ≡ reply_block_lines form 0 (replies_of blocks.now)) }
{
    let mut text = Vec::new(alloc);
    let mut rest = blocks;
    let mut number = 0usize;
    while let Some((block, more)) = rest.split_first() {
        put_block_head(&mut text, form, number)?;
        text.extend_from_slice(&lines_of_replies(alloc, form, Some(number), block)?)?;
        number += 1;
        rest = more;
    }
    Ok(text)
}

// Appends what stands ahead of a block's lines.
fn put_block_head(text: &mut Vec<u8>, form: Form, number: usize) -> Result<(), AllocError>
    ensures { OnOk result (text.new.items ≡ text.old.items ++ block_head form number) }
{
    match form {
        Form::Lines => put_number_line(text, number as u64),
        Form::Json(_) => Ok(()),
    }
}

// Appends the line with the number of a block.
fn put_number_line(text: &mut Vec<u8>, number: u64) -> Result<(), AllocError>
    ensures { OnOk result (text.new.items ≡ text.old.items ++ (codes "block " ++ decimal number ++ 10 ∷ [])) }
{
    let mut digits = Buffer::new();
    text.extend_from_slice(b"block ")?;
    text.extend_from_slice(digits.format(number).as_bytes())?;
    text.push(b'\n')?;
    Ok(())
}
