ghost use Rattle.std.specs.Prelude.{◌≡◌, IfOk};
ghost use Rattle.app_reports.specs.Sought.{message_line, sought_lines, told_line};

use crate::sought::Sought;
use app_words::Form;
use issuer_rows::Frame;
use message_text::{Place, frame_line};
use reason_text::FrameWords;
use std::alloc::{AllocError, Global};

/// The lines of those bodies of a batch that are such messages, in their order: of each its place and what it says. It fails only where
/// memory runs out.
pub(crate) fn lines_of_sought(
    alloc: Global,
    frames: &[Frame],
    sought: &Sought<'_>,
    form: Form,
) -> Result<Vec<u8>, AllocError>
    ensures { IfOk result (λ text. text.items ≡ sought_lines form sought.now 0 frames.now) }
{
    let mut text = Vec::new(alloc);
    for place in 0..frames.len() {
        let frame = &frames[place];
        if sought.is_met_by(frame) {
            let line = line_of(alloc, form, place, frame)?;
            text.extend_from_slice(&line)?;
        }
    }
    Ok(text)
}

// The line of a message in this form.
fn line_of(alloc: Global, form: Form, index: usize, frame: &Frame) -> Result<Vec<u8>, AllocError>
    ensures { IfOk result (λ line. line.items ≡ told_line form index frame.now) }
{
    match form {
        Form::Lines => words_line(alloc, index, frame),
        Form::Json(cards) => frame_line(alloc, Place { block: None, index }, cards, frame),
    }
}

// The line of a message for people.
fn words_line(alloc: Global, place: usize, frame: &Frame) -> Result<Vec<u8>, AllocError>
    ensures { IfOk result (λ line. line.items ≡ message_line place frame.now) }
{
    let words = FrameWords(frame);
    let line = format!(in alloc; "message  {place}: {words}\n")?;
    Ok(line.into_bytes())
}
