ghost use Rattle.std.specs.Prelude.{◌≡◌, ◌≢◌, IfErr, OnOk};
ghost use Rattle.app_parts.specs.Faults.{AreApart, HaveOneFile, names_of, IsApartFault};

use crate::archive_fault::ArchiveFault;
use crate::archive_names::ArchiveNames;
use file_devices::Files;

/// Checks that what is written are two files, of which neither is the book.
pub(crate) fn check_names<F: Files>(files: &F, names: &ArchiveNames<'_>) -> Result<(), ArchiveFault>
    ensures apart { OnOk result (F.is_known files.now → AreApart (names_of names.now)) }
    ensures fault { IfErr result (IsApartFault (F.is_known files.now → HaveOneFile (names_of names.now))) }
{
    if files.is_one_file(names.new_book, names.book)? {
        return Err(ArchiveFault::OneFile("NEWBOOK", "BOOK"));
    }
    if files.is_one_file(names.old, names.book)? {
        return Err(ArchiveFault::OneFile("OLD", "BOOK"));
    }
    if files.is_one_file(names.new_book, names.old)? {
        return Err(ArchiveFault::OneFile("NEWBOOK", "OLD"));
    }
    Ok(())
}
