ghost use Rattle.std.specs.Prelude.{◌≡◌, ◌≢◌, ℕ, List, IfOk, IfErr, OnErr};
ghost use Rattle.app_parts.specs.Archived.{IsArchived};
ghost use Rattle.app_parts.specs.Faults.{IsArchiveFault, names_of};
ghost use Rattle.file_devices.specs.Holding.{AreAsTheyWere, IsAsItWas};

use crate::archive_apart::check_names;
use crate::archive_count::ArchiveCount;
use crate::archive_fault::ArchiveFault;
use crate::archive_names::ArchiveNames;
use crate::archive_placing::put_books;
use crate::claiming::claim_books;
use app_jobs::{open_book, write_book};
use book_changes::archive_book;
use file_devices::Files;
use iso8583::Day;
use std::alloc::Global;
use std::sync::Wait;
use std::thread::Threads;

/// Archives the book of a file by a date, and puts the new book and the old one in place, both or, after a fault, none. The book stays as it
/// is. The first fault is told: of the names, of files that are in use, of the book, then of what is written.
pub fn archive_files<R: Threads + Wait + Sync, F: Files>(
    rt: &R,
    alloc: Global,
    files: &mut F,
    names: &ArchiveNames<'_>,
    date: &Day,
) -> Result<ArchiveCount, ArchiveFault>
    ensures archived { IfOk result (IsArchived (F.is_known files.old) (F.holds files.old) (F.holds files.new) (names_of names.now) date.now) }
    ensures fault { IfErr result (IsArchiveFault (F.is_known files.old) (F.holds files.old) (F.failing files.old) (names_of names.now)) }
    ensures kept { OnErr result (AreAsTheyWere (F.holds files.old) (F.holds files.new)) }
    ensures others { (other : List ℕ) → other ≢ names.now.new_book.now → other ≢ names.now.old.now → IsAsItWas (F.holds files.old) (F.holds files.new) other }
    ensures known { F.is_known files.old → F.is_known files.new }
{
    check_names(files, names)?;
    let _claims = claim_books(alloc, files, names)?;
    let book = open_book(rt, alloc, files, names.book)?;
    let archived = archive_book(alloc, &book, date)?;
    let kept = archived.new_book.len();
    let count = ArchiveCount {
        archived: book.len().saturating_sub(kept),
        kept,
    };
    let new_book = write_book(rt, alloc, files, names.new_book, &archived.new_book)?;
    let old = write_book(rt, alloc, files, names.old, &archived.old)?;
    put_books(alloc, files, names, new_book, old)?;
    Ok(count)
}
