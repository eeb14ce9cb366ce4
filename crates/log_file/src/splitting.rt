//! The parts of an entry, taken from its bytes.

ghost use Rattle.std.specs.Prelude.{◌≡◌, ◌≢◌, ◌↔◌, ◌<◌, ◌≤◌, ◌^◌, ◌++◌, ℕ, List, length, take, IsTrue, IfSome, IfNone};
ghost use Rattle.std.specs.List.{flat_map};
ghost use Rattle.byteorder.specs.Endian.{big_bytes};
ghost use Rattle.file_laws.specs.Files.{AreBodies, IsBody, framed};
ghost use Rattle.file_laws.specs.Texts.{entry_head};
ghost use Rattle.log_file.specs.Bodies.{IsFramed};

use byteorder::{BigEndian, ByteOrder};

/// How many bytes the payload of an entry with this head has. `None` where it is no head.
#[tactic(auto, unfolding(file_laws::specs::Texts::entry_head))]
pub(crate) fn payload_size(head: &[u8]) -> Option<u32>
    requires { 8 ≤ length head.now }
    ensures some { IfSome result (λ size. take 8 head.now ≡ entry_head size) }
    ensures none { IfNone result ((size : ℕ) → size < 2 ^ 32 → take 8 head.now ≢ entry_head size) }
{
    let size = BigEndian::read_u32(head);
    let mut own = [0u8; 8];
    BigEndian::write_u32(&mut own, size);
    BigEndian::write_u32(&mut own[4..], u32::MAX - size);
    let (front, _) = head.split_at(8);
    if front == own.as_slice() {
        Some(size)
    } else {
        None
    }
}

/// How many bodies a payload has, of at most 65,536, and its bytes behind that.
pub(crate) fn split_count(payload: &[u8]) -> Option<(u32, &[u8])>
    ensures some { IfSome result (λ parts. (payload.now ≡ big_bytes 4 parts.0 ++ parts.1.now) × (parts.0 ≤ 65536)) }
    ensures none { IfNone result ((count : ℕ) (text : List ℕ) → count ≤ 65536 → payload.now ≢ big_bytes 4 count ++ text) }
{
    if payload.len() < 4 {
        return None;
    }
    let count = u32::from_be_bytes([payload[0], payload[1], payload[2], payload[3]]);
    if count > 65_536 {
        return None;
    }
    Some((count, &payload[4..]))
}

/// The first body, and the bytes behind it. `None` where no body stands there.
pub(crate) fn split_body(text: &[u8]) -> Option<(&[u8], &[u8])>
    ensures some { IfSome result (λ parts. IsBody parts.0.now × (text.now ≡ framed parts.0.now ++ parts.1.now)) }
    ensures none { IfNone result ((body rest : List ℕ) → IsBody body → text.now ≢ framed body ++ rest) }
{
    if text.len() < 2 {
        return None;
    }
    let size = u16::from_be_bytes([text[0], text[1]]) as usize;
    let rest = &text[2..];
    if size == 0 || size > 512 || rest.len() < size {
        return None;
    }
    Some(rest.split_at(size))
}

/// Whether the text is so many bodies, each behind its length.
pub(crate) fn is_framed(text: &[u8], count: u32) -> bool
    requires { count ≤ 65536 }
    ensures framed { IsTrue result → IsFramed count text.now }
    ensures none { (bodies : List (List ℕ)) → AreBodies bodies → length bodies ≡ count → text.now ≡ flat_map framed bodies → IsTrue result }
{
    let mut rest = text;
    for _ in 0..count {
        let Some((_, behind)) = split_body(rest) else {
            return false;
        };
        rest = behind;
    }
    rest.is_empty()
}
