ghost use Rattle.std.specs.Prelude.{◌≡◌, ◌+◌, ◌≤◌, length, drop, Ok, Err, IfSome, IfNone};
ghost use Rattle.file_laws.specs.Reading.{field_at, number_at};
ghost use Rattle.file_laws.specs.declared.batch_fault.BatchFault.TheVariants.{Ended};
ghost use Rattle.file_listing.specs.Places.{IsFieldAt, IsNumberAt};

use byteorder::{BigEndian, ByteOrder};

/// So many bytes from this byte of the file on, if it has them.
pub(crate) fn field(file: &[u8], at: usize, size: usize) -> Option<&[u8]>
    requires { at ≤ length file.now }
    ensures found { IfSome result (λ bytes. IsFieldAt file.now at size bytes.now) }
    ensures none { IfNone result (field_at size (drop at file.now) ≡ Err Ended) }
{
    let rest = &file[at..];
    if rest.len() < size {
        return None;
    }
    let (bytes, _) = rest.split_at(size);
    Some(bytes)
}

/// The number of two bytes there.
#[tactic(auto, unfolding(file_laws::specs::Reading::number_at))]
pub(crate) fn short(file: &[u8], at: usize) -> Option<u16>
    requires { at ≤ length file.now }
    ensures found { IfSome result (IsNumberAt file.now at 2) }
    ensures none { IfNone result (number_at 2 (drop at file.now) ≡ Err Ended) }
{
    match field(file, at, 2) {
        Some(bytes) => Some(BigEndian::read_u16(bytes)),
        None => None,
    }
}

/// The number of four bytes there.
#[tactic(auto, unfolding(file_laws::specs::Reading::number_at))]
pub(crate) fn long(file: &[u8], at: usize) -> Option<u32>
    requires { at ≤ length file.now }
    ensures found { IfSome result (IsNumberAt file.now at 4) }
    ensures none { IfNone result (number_at 4 (drop at file.now) ≡ Err Ended) }
{
    match field(file, at, 4) {
        Some(bytes) => Some(BigEndian::read_u32(bytes)),
        None => None,
    }
}
