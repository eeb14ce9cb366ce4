ghost use Rattle.std.specs.Prelude.{◌≡◌};
ghost use Rattle.link_frames.specs.Front.{IsFront};

use byteorder::{BigEndian, ByteOrder};

/// What some bytes of a link begin with.
#[derive(Clone, Copy)]
pub enum Front<'a> {
    /// A frame: its body, of 1 to 512 bytes, and the bytes behind it.
    Frame(&'a [u8], &'a [u8]),
    /// Less than a frame.
    Part,
    /// A length of 0, or over 512.
    Wrong,
}

/// What the bytes begin with: two bytes, big-endian, of a body's length, and the body.
pub fn front_of(bytes: &[u8]) -> Front<'_>
    ensures { IsFront bytes.now result }
{
    if bytes.len() < 2 {
        return Front::Part;
    }
    let length = BigEndian::read_u16(bytes) as usize;
    let (_, behind) = bytes.split_at(2);
    if length == 0 || length > 512 {
        return Front::Wrong;
    }
    if behind.len() < length {
        return Front::Part;
    }
    let (body, rest) = behind.split_at(length);
    Front::Frame(body, rest)
}
