ghost use Rattle.std.specs.Prelude.{◌≡◌, ◌↔◌, Some, IsTrue, slice_get};

use issuer_rows::Frame;

// Whether the body stands at this place.
pub(crate) fn is_at(frames: &[Frame], index: u32, frame: &Frame) -> bool
    ensures { IsTrue result ↔ (slice_get frames.now index ≡ Some frame.now) }
{
    match frames.get(index as usize) {
        Some(found) => found.is_same(frame),
        None => false,
    }
}
