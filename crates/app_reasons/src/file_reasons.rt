//! What is told of one file, which is read once more.

ghost use Rattle.std.specs.Prelude.{◌≤◌, IfSome};
ghost use Rattle.app_words.specs.Asked.{show};
ghost use Rattle.app_reasons.specs.Tells.{IsFileFor, IsOfLine, TellsOfBook, TellsOfFile, TellsUnread, TellsUnreadable};

use crate::file_kind::FileKind;
use crate::line_reason::reason_of_line;
use crate::reason::Reason;
use book_laws::JsonFault;
use book_places::place_in_book;
use file_devices::{Files, read_again};
use file_laws::BatchFault;
use file_listing::{ListingFault, read_bodies};
use std::alloc::Global;

/// Why the file isn't read.
pub(crate) fn unread_reason<F: Files>(alloc: Global, files: &F, name: &str) -> Option<Reason>
    ensures { IfSome result (TellsUnread (F.holds files.now) name.now) }
{
    match read_again(alloc, files, name) {
        Ok(_) => None,
        Err(reason) => Some(Reason::Host(reason)),
    }
}

/// Why the first body of a batch that is no message is none.
pub(crate) fn unreadable_reason<F: Files>(alloc: Global, files: &F, name: &str) -> Option<Reason>
    ensures { IfSome result (TellsUnreadable (F.holds files.now) name.now) }
{
    let file = read_again(alloc, files, name).ok()??;
    match Reason::of_unread(&file) {
        Some(reason) => Some(reason),
        None => None,
    }
}

/// Where a fault of this number is the first of the file as a book.
pub(crate) fn book_reason<F: Files>(
    alloc: Global,
    files: &F,
    name: &str,
    fault: &JsonFault,
) -> Option<Reason>
    ensures { IfSome result (TellsOfBook (F.holds files.now) fault.now name.now) }
{
    let text = read_again(alloc, files, name).ok()??;
    let Ok(Some(wrong)) = place_in_book(alloc, &text) else {
        return None;
    };
    if wrong.fault.number() == fault.number() {
        Some(Reason::Book(wrong.place))
    } else {
        None
    }
}

/// Where a fault of this number is the first of the file as one of this kind.
pub(crate) fn file_reason<F: Files>(
    alloc: Global,
    files: &F,
    name: &str,
    kind: FileKind,
    fault: &BatchFault,
) -> Option<Reason>
    ensures { IfSome result (TellsOfFile (F.holds files.now) fault.now kind name.now) }
{
    let file = read_again(alloc, files, name).ok()??;
    let Some((found, reason)) = Reason::of_file(kind, &file) else {
        return None;
    };
    if found.number() == fault.number() {
        Some(reason)
    } else {
        None
    }
}

/// As what the file is shown, as it begins.
pub(crate) fn shown_kind<F: Files>(alloc: Global, files: &F, name: &str) -> Option<FileKind>
    ensures { IfSome result (IsFileFor (show name.now) name.now) }
{
    let file = read_again(alloc, files, name).ok()??;
    match FileKind::of_file(&file) {
        Some(kind) => Some(kind),
        None => Some(FileKind::Batch),
    }
}

/// How many bodies the file has as a text; 65,537 where it has more than a batch may have.
pub(crate) fn body_count<F: Files>(alloc: Global, files: &F, name: &str) -> Option<u32>
    ensures { IfSome result (λ count. count ≤ 65537) }
{
    let text = read_again(alloc, files, name).ok()??;
    match read_bodies(alloc, &text) {
        Ok(bodies) => Some(bodies.len() as u32),
        Err(ListingFault::Count) => Some(65_537),
        Err(_) => None,
    }
}

/// Why the line of this number, from 1, of the file is no body, where it is the first of its lines that is none.
pub(crate) fn text_reason<F: Files>(
    alloc: Global,
    files: &F,
    name: &str,
    line: usize,
) -> Option<Reason>
    ensures { IfSome result (IsOfLine line) }
{
    let text = read_again(alloc, files, name).ok()??;
    match read_bodies(alloc, &text) {
        Err(ListingFault::Line(first)) if first == line => {}
        _ => return None,
    }
    let wrong = text.split(|byte| *byte == b'\n').nth(line.checked_sub(1)?)?;
    Some(Reason::TextLine(line, reason_of_line(wrong)?))
}
