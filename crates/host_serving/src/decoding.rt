ghost use Rattle.std.specs.Prelude.{◌≡◌, ◌∷◌, ◌++◌, [], OnOk};
ghost use Rattle.issuer_rows.specs.declared.frame.Frame.{Frame};
ghost use Rattle.file_laws.specs.Frames.{IsFrameOf, AreFramesOf};

use file_laws::frame_of;
use issuer_rows::Frame;
use log_file::Bodies;
use std::alloc::AllocError;

/// Appends a copy of an item. Memory can run out.
pub(crate) fn push_copy<T: Copy>(items: &mut Vec<T>, item: &T) -> Result<(), AllocError>
    ensures { OnOk result (items.new.items ≡ items.old.items ++ item.now ∷ []) }
{
    items.reserve(1)?;
    items.push_reserved(*item);
    Ok(())
}

// Takes the message that the body spells.
fn push_frame(frames: &mut Vec<Frame>, body: &[u8]) -> Result<(), AllocError>
    ensures { OnOk result ((frame : Frame) × IsFrameOf body.now frame × (frames.new.items ≡ frames.old.items ++ frame ∷ [])) }
{
    let frame = frame_of(body);
    push_copy(frames, &frame)
}

/// Reads the messages that the bodies spell, over the memory of others; of a body that spells none its fault. Memory can run out.
pub(crate) fn read_frames(bodies: &Bodies, frames: &mut Vec<Frame>) -> Result<(), AllocError>
    ensures { OnOk result (AreFramesOf bodies.now frames.new.items) }
{
    frames.clear();
    let mut left = bodies.iter();
    for _ in 0..bodies.len() {
        let Some(body) = left.next() else {
            unreachable!();
        };
        push_frame(frames, body)?;
    }
    Ok(())
}
