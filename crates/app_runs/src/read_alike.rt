ghost use Rattle.std.specs.Prelude.{◌≡◌, IsTrue};
ghost use Rattle.std.specs.FinMap as map;
ghost use Rattle.std.specs.List.{AllByRecursion};
ghost use Rattle.app_runs.specs.ReadAlike.{IsReadAlike};

use issuer_rows::{Book, RowKey};
use stm_journal_text::{Entry, Event};

/// Whether both books have each row alike that one of these entries reads.
pub(crate) fn are_read_alike(some: &Book, other: &Book, entries: &[Entry]) -> bool
    ensures { IsTrue result → AllByRecursion (λ entry. IsReadAlike some.now other.now entry.event) entries.now }
{
    for entry in entries {
        if !is_read_alike(some, other, &entry.event) {
            return false;
        }
    }
    true
}

// Whether both have the row alike that the event reads, if it reads one.
fn is_read_alike(some: &Book, other: &Book, event: &Event) -> bool
    ensures { IsTrue result → IsReadAlike some.now other.now event.now }
{
    match event {
        Event::Read(_, key) => have_alike(some, other, key),
        _ => true,
    }
}

// Whether both have this row alike.
fn have_alike(some: &Book, other: &Book, key: &RowKey) -> bool
    ensures { IsTrue result → map.get some.now key.now ≡ map.get other.now key.now }
{
    match (some.row(key), other.row(key)) {
        (Some(row), Some(val)) => row.is_same(val),
        (None, None) => true,
        _ => false,
    }
}
