//! Writing a message or a reply into a line that has room for it.

ghost use Rattle.std.specs.Prelude.{◌≡◌, ℕ, ◌+◌, ◌≤◌, ◌++◌, length};
ghost use Rattle.arrayvec.specs.ArrayVec.{array_vec_len};
ghost use Rattle.iso_laws.specs.Spelling.{field};

use arrayvec::ArrayVec;
use iso_laws::{Element, Shape};
use iso8583::Digits;

/// Bytes of capacity with which every message and every reply can be written without allocating. The longest has 179.
pub const ROOM: usize = 256;

/// What is written of one message or reply.
pub(crate) type Line = ArrayVec<u8, ROOM>;

/// Appends the text.
#[inline(always)]
pub(crate) fn put(out: &mut Line, text: &[u8])
    requires { array_vec_len out.old + length text.now ≤ ROOM }
    ensures items { out.new.items ≡ out.old.items ++ text.now }
    ensures len { array_vec_len out.new ≡ array_vec_len out.old + length text.now }
{
    let Ok(()) = out.try_extend_from_slice(text) else {
        unreachable!()
    };
}

/// Appends the spelling of an element, which is at most two bytes longer than its text.
#[inline(always)]
pub(crate) fn put_field(out: &mut Line, element: Element, text: &[u8])
    requires { array_vec_len out.old + 2 + length text.now ≤ ROOM }
    ensures items { out.new.items ≡ out.old.items ++ field (element, text.now) }
    ensures len { array_vec_len out.new ≤ array_vec_len out.old + 2 + length text.now }
{
    match element.shape() {
        Shape::Fixed(_) => put(out, text),
        Shape::UpTo(_, _) => {
            let size = Digits::<2>::of_number(text.len() as u64);
            put(out, size.as_slice());
            put(out, text);
        }
    }
}
