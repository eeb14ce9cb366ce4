ghost use Rattle.std.specs.Prelude.{◌↔◌, IsTrue};
ghost use Rattle.stm_core_laws.specs.State.{IsAt};

use issuer_rows::Frame;

/// Whether the frame stands at the place.
pub(crate) fn is_at(frames: &[Frame], index: u32, frame: &Frame) -> bool
    ensures { IsTrue result ↔ IsAt frames.now index frame.now }
{
    let index = index as usize;
    index < frames.len() && frames[index].is_same(frame)
}
