ghost use Rattle.std.specs.Prelude.{◌≢◌, ◌⊎◌, ℕ, List, IfErr, OnOk, OnErr};
ghost use Rattle.app_jobs.specs.Faults.{IsPuttingFault};
ghost use Rattle.file_devices.specs.Holding.{AreAsTheyWere, IsAsItWas};

use crate::archive_names::ArchiveNames;
use app_jobs::{JobFault, both, written};
use file_devices::Files;
use std::alloc::Global;

/// Puts the new book and the old one in place, the old one first: both, or after a fault none.
pub(crate) fn put_books<F: Files>(
    alloc: Global,
    files: &mut F,
    names: &ArchiveNames<'_>,
    new_book: F::Output,
    old: F::Output,
) -> Result<(), JobFault>
    ensures new_book { OnOk result (F.is_known files.old → F.Output.is_known new_book → F.holds files.new names.now.new_book.now (F.Output.written new_book)) }
    ensures old { OnOk result (F.is_known files.old → names.now.new_book.now ≢ names.now.old.now → F.Output.is_known old → F.holds files.new names.now.old.now (F.Output.written old)) }
    ensures fault { IfErr result (IsPuttingFault ((F.failing files.old).refused names.now.old.now ⊎ (F.failing files.old).refused names.now.new_book.now)) }
    ensures kept { OnErr result (AreAsTheyWere (F.holds files.old) (F.holds files.new)) }
    ensures others { (other : List ℕ) → other ≢ names.now.new_book.now → other ≢ names.now.old.now → IsAsItWas (F.holds files.old) (F.holds files.new) other }
    ensures known { F.is_known files.old → F.is_known files.new }
{
    let old = written(alloc, names.old, old)?;
    let new_book = written(alloc, names.new_book, new_book)?;
    let books = both(alloc, old, new_book)?;
    Ok(files.put_in_place(books)?)
}
