ghost use Rattle.std.specs.Prelude.{◌≡◌, ◌<◌, ◌≤◌, take, drop, length};
ghost use Rattle.link_frames.specs.Link.{AreSoMany, IsNoFrame};

use crate::front::{Front, front_of};

/// The frames that some bytes begin with: how many they are, and how many bytes they have.
#[derive(Clone, Copy)]
pub(crate) struct Frames {
    pub(crate) count: u32,
    pub(crate) size: usize,
}

/// The whole frames that the bytes begin with, at most so many.
pub(crate) fn frames_of(bytes: &[u8], most: u32) -> Frames
    ensures within { result.size ≤ length bytes.now }
    ensures most { result.count ≤ most }
    ensures frames { AreSoMany result.count (take result.size bytes.now) }
    ensures all { result.count < most → IsNoFrame (drop result.size bytes.now) }
{
    let mut rest = bytes;
    let mut count = 0;
    while count < most {
        match front_of(rest) {
            Front::Frame(_, behind) => rest = behind,
            Front::Part | Front::Wrong => break,
        }
        count += 1;
    }
    Frames {
        count,
        size: bytes.len() - rest.len(),
    }
}
