ghost use Rattle.file_laws.specs.Frames.{IsFrameOf};

use iso_codec::decode;
use issuer_rows::{Frame, FrameFault};

/// The message that the body spells (ISO 8583:1993), or the fault of a body that spells none.
pub fn frame_of(body: &[u8]) -> Frame
    ensures { IsFrameOf body.now result }
{
    match decode(body) {
        Ok(message) => Frame::Good(message),
        Err(fault) => match FrameFault::new(fault) {
            Some(fault) => Frame::Bad(fault),
            None => unreachable!(),
        },
    }
}
