ghost use Rattle.std.specs.Prelude.{◌≡◌, ◌↔◌, ◌<◌, ◌+◌, ◌^◌, Some, IsSome, IsTrue, IfOk, IfErr, IfSome, OnOk};
ghost use Rattle.std.specs.Option.{option_copied};
ghost use Rattle.issuer_words.specs.Words.{IsOfKind, RowVal};
ghost use Rattle.stm_memory.specs.Words.{IsNewLocation, IsSeenOfKind, held, seen_of};
ghost use Rattle.stm_memory.specs.declared.seen.Seen.TheVariants.{Estimate, Value};
ghost use Rattle.stm_core_laws.specs.Log.{logged_of, ResolvesAs};

use issuer_rows::{Book, RowKey, RowVal};
use issuer_view::WriteSet;
use stm_memory::{Link, MvMemory, Seen, Version};

/// Writes to a place of the caller's what a row is whose nearest entry is this one, and returns which execution it came from; or the
/// message whose ESTIMATE the entry is.
pub(crate) fn seen_into(
    opening: &Book,
    row: &RowKey,
    link: Option<&Link>,
    value: &mut Option<RowVal>,
) -> Result<Option<Version>, u32>
    requires { IsSeenOfKind row.now (seen_of (option_copied link)) }
    ensures ok { IfOk result (λ origin. logged_of opening.now row.now (seen_of (option_copied link.entry)) ≡ Some (record { origin = origin; value = value.new })) }
    ensures kind { OnOk result (IfSome value.new (IsOfKind row.now)) }
    ensures estimate { IfErr result (λ at. seen_of (option_copied link.entry) ≡ Estimate at) }
{
    let Some(link) = link else {
        match opening.row(row) {
            Some(there) => there.copy_to(value),
            None => *value = None,
        }
        return Ok(None);
    };
    let Some(put) = &link.value else {
        return Err(link.index);
    };
    put.copy_to(value);
    Ok(Some(Version {
        index: link.index,
        incarnation: link.incarnation,
    }))
}

/// Whether the message at this index sees of the row what this execution wrote, or the opening book where it is none. The row is looked
/// for at this number first.
pub(crate) fn resolves_as(
    memory: &MvMemory,
    row: &RowKey,
    number: usize,
    index: u32,
    origin: Option<Version>,
) -> bool
    ensures { IsTrue result ↔ ResolvesAs (held memory.now.entries) row.now index origin }
{
    match (memory.look_at(row, number, index), origin) {
        (None, None) => true,
        (Some(link), Some(version)) => is_value_of(link, version),
        _ => false,
    }
}

// Whether the entry is a value that this execution wrote.
fn is_value_of(link: &Link, version: Version) -> bool
    ensures { IsTrue result ↔ ((value : RowVal) × (seen_of (Some link.now) ≡ Value version value)) }
{
    let own = Version {
        index: link.index,
        incarnation: link.incarnation,
    };
    match link.value {
        Some(_) => own == version,
        None => false,
    }
}

/// Whether a row is written of which the memory has no entry of this index.
pub(crate) fn puts_new_location(memory: &MvMemory, index: u32, writes: &WriteSet) -> bool
    requires { index + 1 < 2 ^ 32 }
    ensures { IsTrue result ↔ IsNewLocation memory.now.entries index writes.now }
{
    for place in 0..writes.len() {
        let (row, _) = writes.at(place);
        if !has_entry(memory, &row, index) {
            return true;
        }
    }
    false
}

// Whether the memory has an entry of the row at this index: then the next message sees it.
fn has_entry(memory: &MvMemory, row: &RowKey, index: u32) -> bool
    requires { index + 1 < 2 ^ 32 }
    ensures { IsTrue result ↔ IsSome (held memory.now.entries row.now index) }
{
    match memory.read(row, index + 1) {
        Seen::Base => false,
        Seen::Value(version, _) => version.index == index,
        Seen::Estimate(at) => at == index,
    }
}
