ghost use Rattle.std.specs.Prelude.{◌≡◌, ℕ, List, IfOk, OnOk, string_bytes};
ghost use Rattle.std.specs.Io.KnownBytes.{Appends};
ghost use Rattle.app_parts.specs.Archived.{IsAnswered, IsWritten, count_line};
ghost use Rattle.file_devices.specs.Holding.{IsAsItWas};

use crate::archive_asking::ArchiveAsked;
use crate::archive_count::ArchiveCount;
use crate::archive_fault::ArchiveFault;
use crate::archive_help::{ARCHIVE_HELP, USAGE};
use crate::archive_names::ArchiveNames;
use crate::archiving::archive_files;
use app_reasons::{FileUse, UsedFile, tell_with, words_of_used};
use app_words::{put, status_of};
use file_devices::Files;
use std::alloc::{AllocError, Global};
use std::io;
use std::io::Write;
use std::sync::Wait;
use std::thread::Threads;

/// Does what is asked of `archive` over these files, and returns the exit status: 0 done, 1 a fault, 2 words that are no command or names of
/// one file. What is asked for goes to `out`, a fault to `err`; what that doesn't take is dropped.
pub fn answer_archive<R: Threads + Wait + Sync, F: Files, O: Write, E: Write>(
    rt: &R,
    alloc: Global,
    files: &mut F,
    asked: &ArchiveAsked<'_>,
    out: &mut O,
    err: &mut E,
) -> u8
    ensures answered { IsAnswered (F.is_known files.old) (F.holds files.old) (F.holds files.new) (F.failing files.old) asked.now (O.contents out.old) (O.contents out.new) result }
    ensures others { (name : List ℕ) → ¬ IsWritten asked.now name → IsAsItWas (F.holds files.old) (F.holds files.new) name }
{
    match asked {
        ArchiveAsked::Book(names, date) => {
            match archive_files(rt, alloc, files, names, date) {
                Ok(count) => status_of(say(alloc, &count, out), err),
                Err(fault) => {
                    tell_with(&fault, line_of_fault(alloc, files, names, &fault), err);
                    fault.status()
                }
            }
        }
        ArchiveAsked::Help => status_of(put(out, ARCHIVE_HELP.as_bytes()), err),
        ArchiveAsked::Wrong => {
            let _ = err.write_all(USAGE.as_bytes());
            2
        }
    }
}

// What is told of the first of its files that has the fault, if something is.
fn line_of_fault<F: Files>(
    alloc: Global,
    files: &F,
    names: &ArchiveNames<'_>,
    fault: &ArchiveFault,
) -> Option<Vec<u8>> {
    let ArchiveFault::Job(fault) = fault else {
        return None;
    };
    let used = [
        UsedFile::new(names.book, FileUse::Book),
        UsedFile::new(names.new_book, FileUse::Written),
        UsedFile::new(names.old, FileUse::Written),
    ];
    words_of_used(alloc, files, &used, fault)
}

// Says how many rows went and how many stayed.
fn say<O: Write>(alloc: Global, count: &ArchiveCount, out: &mut O) -> io::Result<()>
    ensures { OnOk result (Appends (O.contents out.old) (O.contents out.new) (count_line count.now)) }
{
    match line_of(alloc, count) {
        Ok(line) => put(out, line.as_bytes()),
        Err(_) => Err(io::Error::from(io::ErrorKind::OutOfMemory)),
    }
}

// The same as a line.
fn line_of(alloc: Global, count: &ArchiveCount) -> Result<String, AllocError>
    ensures { IfOk result (λ line. string_bytes line ≡ count_line count.now) }
{
    let (archived, kept) = (count.archived, count.kept);
    let line = format!(in alloc; "archived {archived}, kept {kept}\n")?;
    Ok(line)
}
