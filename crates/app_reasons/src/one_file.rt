//! What is told of one file behind a fault.

ghost use Rattle.std.specs.Prelude.{◌≡◌, ◌++◌, IfSome, codes};
ghost use Rattle.app_reasons.specs.OneLine.{shown};
ghost use Rattle.app_reasons.specs.Tells.{TellsOfOne, TellsOfOneBook};
ghost use Rattle.app_reasons.specs.Words.{IsLineOf};

use crate::explaining::line_of;
use crate::file_kind::FileKind;
use crate::file_reasons::{book_reason, file_reason, shown_kind, unread_reason};
use crate::one_line::in_one_line;
use crate::reason::Reason;
use crate::telling::tell_with;
use crate::told::Told;
use app_jobs::JobFault;
use file_devices::Files;
use std::alloc::Global;
use std::io::Write;

/// Why a file is not read as one of this kind.
pub(crate) fn reason_of_file<F: Files>(
    alloc: Global,
    files: &F,
    name: &str,
    kind: FileKind,
    fault: &JobFault,
) -> Option<Reason>
    ensures { IfSome result (TellsOfOne (F.holds files.now) kind fault.now name.now) }
{
    match fault {
        JobFault::Unreadable => unread_reason(alloc, files, name),
        JobFault::Batch(fault) => file_reason(alloc, files, name, kind, fault),
        _ => None,
    }
}

/// What is told of a file behind a fault of reading it as one of this kind, in one line, where something is. The file is read once more.
pub fn words_of_file<F: Files>(
    alloc: Global,
    files: &F,
    name: &str,
    kind: FileKind,
    fault: &JobFault,
) -> Option<Vec<u8>>
    ensures { IfSome result (λ line. IsLineOf name.now (TellsOfOne (F.holds files.now) kind fault.now) line.items) }
{
    match reason_of_file(alloc, files, name, kind, fault) {
        Some(reason) => line_of(alloc, &Told { name, reason }),
        None => None,
    }
}

/// Why a book is not read.
pub(crate) fn reason_of_book<F: Files>(
    alloc: Global,
    files: &F,
    name: &str,
    fault: &JobFault,
) -> Option<Reason>
    ensures { IfSome result (TellsOfOneBook (F.holds files.now) fault.now name.now) }
{
    match fault {
        JobFault::Unreadable => unread_reason(alloc, files, name),
        JobFault::Book(fault) => book_reason(alloc, files, name, fault),
        _ => None,
    }
}

/// What is told of a file behind a fault of reading it as a book, in one line, where something is. The file is read once more.
pub fn words_of_book<F: Files>(
    alloc: Global,
    files: &F,
    name: &str,
    fault: &JobFault,
) -> Option<Vec<u8>>
    ensures { IfSome result (λ line. IsLineOf name.now (TellsOfOneBook (F.holds files.now) fault.now) line.items) }
{
    match reason_of_book(alloc, files, name, fault) {
        Some(reason) => line_of(alloc, &Told { name, reason }),
        None => None,
    }
}

/// A file's name and these words of it in one line, unless memory runs out.
pub fn line_of_words(alloc: Global, name: &str, words: &str) -> Option<Vec<u8>>
    ensures { IfSome result (λ line. line.items ≡ shown (name.now ++ (codes ": " ++ words.now))) }
{
    let text = format!(in alloc; "{name}: {words}").ok()?;
    in_one_line(alloc, text.as_str()).ok()
}

/// Tells a fault of reading a file as one of this kind, and behind it what is told of the file, a line each. What `err` doesn't take is
/// dropped.
pub fn tell_of_file<F: Files, E: Write>(
    alloc: Global,
    files: &F,
    name: &str,
    kind: FileKind,
    fault: &JobFault,
    err: &mut E,
) {
    let line = words_of_file(alloc, files, name, kind, fault);
    tell_with(fault, line, err);
}

/// Tells a fault of reading a book, or a batch behind it, and behind it what is told of the first of the two that has it. What `err` doesn't
/// take is dropped.
pub fn tell_of_book_or_batch<F: Files, E: Write>(
    alloc: Global,
    files: &F,
    book: &str,
    batch: &str,
    fault: &JobFault,
    err: &mut E,
) {
    let line = match words_of_book(alloc, files, book, fault) {
        Some(line) => Some(line),
        None => words_of_file(alloc, files, batch, FileKind::Batch, fault),
    };
    tell_with(fault, line, err);
}

/// The same of a file that is read as what it begins as; as a batch, where it begins with no letters of another file.
pub fn tell_of_any_file<F: Files, E: Write>(
    alloc: Global,
    files: &F,
    name: &str,
    fault: &JobFault,
    err: &mut E,
) {
    let kind = shown_kind(alloc, files, name).unwrap_or(FileKind::Batch);
    tell_of_file(alloc, files, name, kind, fault, err);
}
