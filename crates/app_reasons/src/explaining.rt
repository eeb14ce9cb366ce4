//! What is told behind a fault of a command.

ghost use Rattle.std.specs.Prelude.{◌≡◌, ℕ, List, IfSome, Some};
ghost use Rattle.app_reasons.specs.Words.{told_line};
ghost use Rattle.app_reasons.specs.declared.reason.Reason.{Reason};
ghost use Rattle.app_words.specs.Asked.{asked_of, show};
ghost use Rattle.app_reasons.specs.Tells.{IsJournalFor, Tells, TellsOfBodies, reason_of_journal};
ghost use Rattle.app_jobs.specs.declared.job_fault.JobFault.TheVariants as job;

use crate::command_files::{
    nth_audited, nth_book, nth_file, nth_read, nth_text, nth_written, text_count,
};
use crate::file_kind::FileKind;
use crate::file_reasons::{
    body_count, book_reason, file_reason, shown_kind, text_reason, unread_reason, unreadable_reason,
};
use crate::one_line::in_one_line;
use crate::reason::Reason;
use crate::told::Told;
use app_jobs::JobFault;
use app_words::Command;
use book_laws::JsonFault;
use file_devices::{ClaimFault, Files, HostReason, read_again};
use file_laws::BatchFault;
use std::alloc::Global;
use stm_journal_text::ReplayFault;

/// What is told of a file behind a fault of this command, in one line, where something is.
pub fn words_of<F: Files>(
    alloc: Global,
    files: &F,
    command: &Command,
    fault: &JobFault,
) -> Option<Vec<u8>>
    ensures { IfSome result (λ line. (name : List ℕ) × (reason : Reason) × Tells (F.holds files.now) (asked_of command.now) fault.now name reason
        × (line.items ≡ told_line name reason)) }
{
    match told_of(alloc, files, command, fault) {
        Some(told) => line_of(alloc, &told),
        None => None,
    }
}

/// The same in one line.
pub(crate) fn line_of(alloc: Global, told: &Told<'_>) -> Option<Vec<u8>>
    ensures { IfSome result (λ line. line.items ≡ told_line told.now.name.now told.now.reason) }
{
    let text = told.to_string(alloc).ok()?;
    in_one_line(alloc, text.as_str()).ok()
}

/// What is told of a file behind a fault of this command: of the first of its files that has the fault. The files are read once more;
/// nothing is told where they don't have it now, where they can't be read again, and where memory runs out.
pub fn told_of<'a, F: Files>(
    alloc: Global,
    files: &F,
    command: &'a Command,
    fault: &JobFault,
) -> Option<Told<'a>>
    ensures { IfSome result (λ told. Tells (F.holds files.now) (asked_of command.now) fault.now told.name.now told.reason) }
{
    match fault {
        JobFault::Unreadable => match command {
            Command::Pack { .. } | Command::PackBlocks { .. } => {
                told_unread_text(alloc, files, command)
            }
            _ => told_unread(alloc, files, command),
        },
        JobFault::Unwritable => told_unwritten(files, command),
        JobFault::InUse => told_in_use(files, command),
        JobFault::Book(fault) => told_of_book(alloc, files, command, fault),
        JobFault::Batch(fault) => told_of_bodies(alloc, files, command, fault),
        JobFault::Journal(fault) => told_of_journal(command, fault),
        JobFault::Text(line) => told_of_text(alloc, files, command, *line),
        JobFault::Bodies(count) => told_of_unreadable(alloc, files, command, *count),
        JobFault::OutOfMemory => None,
    }
}

// Of the first file that can't be read.
fn told_unread<'a, F: Files>(alloc: Global, files: &F, command: &'a Command) -> Option<Told<'a>>
    ensures { IfSome result (λ told. Tells (F.holds files.now) (asked_of command.now) job.Unreadable told.name.now told.reason) }
{
    for index in 0..5 {
        let name = nth_read(command, index)?;
        if let Some(reason) = unread_reason(alloc, files, name) {
            return Some(Told { name, reason });
        }
    }
    None
}

// Of the first text that can't be read.
fn told_unread_text<'a, F: Files>(
    alloc: Global,
    files: &F,
    command: &'a Command,
) -> Option<Told<'a>>
    ensures { IfSome result (λ told. Tells (F.holds files.now) (asked_of command.now) job.Unreadable told.name.now told.reason) }
{
    for index in 0..text_count(command) {
        let name = nth_text(command, index)?;
        if let Some(reason) = unread_reason(alloc, files, name) {
            return Some(Told { name, reason });
        }
    }
    None
}

// Of the first file that can't be made.
fn told_unwritten<'a, F: Files>(files: &F, command: &'a Command) -> Option<Told<'a>>
    ensures { IfSome result (λ told. Tells (F.holds files.now) (asked_of command.now) job.Unwritable told.name.now told.reason) }
{
    for index in 0..3 {
        let name = nth_written(command, index)?;
        if let Some(reason) = files.why_not_made(name) {
            return Some(Told {
                name,
                reason: Reason::Host(reason),
            });
        }
    }
    None
}

// Of the first file that another run has claimed.
fn told_in_use<'a, F: Files>(files: &F, command: &'a Command) -> Option<Told<'a>>
    ensures { IfSome result (λ told. Tells (F.holds files.now) (asked_of command.now) job.InUse told.name.now told.reason) }
{
    for index in 0..3 {
        if let Some(name) = nth_written(command, index)
            && matches!(files.claim(name), Err(ClaimFault::InUse))
        {
            return Some(Told {
                name,
                reason: Reason::InUse,
            });
        }
        if let Some(name) = nth_audited(command, index)
            && matches!(files.claim_to_read(name), Err(ClaimFault::InUse))
        {
            return Some(Told {
                name,
                reason: Reason::InUse,
            });
        }
    }
    None
}

// Of the first body of the batch that is no message.
fn told_of_unreadable<'a, F: Files>(
    alloc: Global,
    files: &F,
    command: &'a Command,
    _count: u32,
) -> Option<Told<'a>>
    ensures { IfSome result (λ told. Tells (F.holds files.now) (asked_of command.now) (job.Bodies _count) told.name.now told.reason) }
{
    let (name, kind) = nth_file(command, 0)?;
    match kind {
        FileKind::Batch => match unreadable_reason(alloc, files, name) {
            Some(reason) => Some(Told { name, reason }),
            None => None,
        },
        _ => None,
    }
}

// Of the first book that has the fault.
fn told_of_book<'a, F: Files>(
    alloc: Global,
    files: &F,
    command: &'a Command,
    fault: &JsonFault,
) -> Option<Told<'a>>
    ensures { IfSome result (λ told. Tells (F.holds files.now) (asked_of command.now) (job.Book fault.now) told.name.now told.reason) }
{
    for index in 0..2 {
        let name = nth_book(command, index)?;
        if let Some(reason) = book_reason(alloc, files, name, fault) {
            return Some(Told { name, reason });
        }
    }
    None
}

// Of a file of bodies.
fn told_of_bodies<'a, F: Files>(
    alloc: Global,
    files: &F,
    command: &'a Command,
    fault: &BatchFault,
) -> Option<Told<'a>>
    ensures { IfSome result (λ told. Tells (F.holds files.now) (asked_of command.now) (job.Batch fault.now) told.name.now told.reason) }
{
    if matches!(fault, BatchFault::Device) {
        return told_of_device(alloc, files, command);
    }
    match command {
        Command::Pack { .. } => told_of_count(alloc, files, command, fault, false),
        Command::PackBlocks { .. } => told_of_count(alloc, files, command, fault, true),
        Command::Show(file) => told_of_shown(alloc, files, file.as_str(), fault),
        _ => told_of_files(alloc, files, command, fault),
    }
}

// Of the first text with whose bodies there are too many: with those of the texts before it or, where each is a block, alone.
fn told_of_count<'a, F: Files>(
    alloc: Global,
    files: &F,
    command: &'a Command,
    fault: &BatchFault,
    is_each_a_block: bool,
) -> Option<Told<'a>>
    ensures { IfSome result (λ told. TellsOfBodies (F.holds files.now) (asked_of command.now) fault.now told.name.now told.reason) }
{
    if !matches!(fault, BatchFault::Count) {
        return None;
    }
    let mut count = 0u32;
    for index in 0..text_count(command) {
        let name = nth_text(command, index)?;
        let own = body_count(alloc, files, name)?;
        count = if is_each_a_block {
            own
        } else {
            count.saturating_add(own)
        };
        if count > 65_536 {
            return Some(Told {
                name,
                reason: Reason::TooManyLines,
            });
        }
    }
    None
}

// Of the first file of bodies that has the fault.
fn told_of_files<'a, F: Files>(
    alloc: Global,
    files: &F,
    command: &'a Command,
    fault: &BatchFault,
) -> Option<Told<'a>>
    ensures { IfSome result (λ told. TellsOfBodies (F.holds files.now) (asked_of command.now) fault.now told.name.now told.reason) }
{
    for index in 0..2 {
        let (name, kind) = nth_file(command, index)?;
        if let Some(reason) = file_reason(alloc, files, name, kind, fault) {
            return Some(Told { name, reason });
        }
    }
    None
}

// Of the file that is shown.
fn told_of_shown<'a, F: Files>(
    alloc: Global,
    files: &F,
    name: &'a str,
    fault: &BatchFault,
) -> Option<Told<'a>>
    ensures { IfSome result (λ told. TellsOfBodies (F.holds files.now) (show name.now) fault.now told.name.now told.reason) }
{
    let kind = shown_kind(alloc, files, name)?;
    match file_reason(alloc, files, name, kind, fault) {
        Some(reason) => Some(Told { name, reason }),
        None => None,
    }
}

// Of the file whose device failed: the batch where it can't be read again, else the first that is written.
fn told_of_device<'a, F: Files>(alloc: Global, files: &F, command: &'a Command) -> Option<Told<'a>>
    ensures { IfSome result (λ told. Tells (F.holds files.now) (asked_of command.now) (job.Batch BatchFault.Device) told.name.now told.reason) }
{
    if let Some(name) = nth_read(command, 1)
        && let Err(reason) = read_again(alloc, files, name)
    {
        return Some(Told {
            name,
            reason: Reason::Host(reason),
        });
    }
    let name = nth_written(command, 0)?;
    Some(Told {
        name,
        reason: Reason::Host(HostReason::Failed),
    })
}

// Of the journal that is played.
fn told_of_journal<'a>(command: &'a Command, fault: &ReplayFault) -> Option<Told<'a>>
    ensures { IfSome result (λ told. IsJournalFor (asked_of command.now) told.name.now × (reason_of_journal fault.now ≡ Some told.reason)) }
{
    let Command::Audit {
        journal: Some(journal),
        ..
    } = command
    else {
        return None;
    };
    let reason = match fault {
        ReplayFault::Line(line) => Reason::JournalLine(*line),
        ReplayFault::Unlogged(entry) => Reason::JournalEntry(*entry),
        ReplayFault::OutOfMemory => return None,
    };
    Some(Told {
        name: journal.as_str(),
        reason,
    })
}

// Of the first text that is packed whose line of this number is wrong.
fn told_of_text<'a, F: Files>(
    alloc: Global,
    files: &F,
    command: &'a Command,
    line: usize,
) -> Option<Told<'a>>
    ensures { IfSome result (λ told. Tells (F.holds files.now) (asked_of command.now) (job.Text line) told.name.now told.reason) }
{
    for index in 0..text_count(command) {
        let name = nth_text(command, index)?;
        if let Some(reason) = text_reason(alloc, files, name, line) {
            return Some(Told { name, reason });
        }
    }
    None
}
