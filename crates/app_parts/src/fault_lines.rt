//! What is told behind a fault of `part`, `decide` and `join`: a line on the file that has it.

ghost use Rattle.std.specs.Prelude.{ℕ, IfSome};
ghost use Rattle.app_parts.specs.Tells.{TellsOfDeciding, TellsOfDecidingJob, TellsOfFolderWritten, TellsOfJoined, TellsOfJoining, TellsOfJoiningJob, TellsOfMissing, TellsOfParting, TellsOfRestOrNewBook, TellsOfUndecided, TellsUnread};
ghost use Rattle.app_parts_folder.specs.Joining as joining;
ghost use Rattle.app_parts_folder.specs.Names.{part_name, plan_name};
ghost use Rattle.app_parts_folder.specs.Parting as parting;
ghost use Rattle.app_parts_folder.specs.declared.part_file.PartFile.{PartFile as File};
ghost use Rattle.app_parts_folder.specs.declared.part_file.PartFile.TheVariants as part_file;
ghost use Rattle.app_reasons.specs.Tells.{TellsOfOne, TellsOfOneBook, TellsOfWritten};
ghost use Rattle.app_reasons.specs.Words.{IsLineOf};
ghost use Rattle.app_reasons.specs.declared.file_kind.FileKind.TheVariants as kind;

use crate::folder_lines::line_of_folder;
use app_jobs::JobFault;
use app_parts_folder::{
    JoinNames, MostParts, PartFault, PartFile, PartNames, PartsFault, open_plan, part_name,
    plan_name, rest_name,
};
use app_reasons::{FileKind, line_of_words, words_of_book, words_of_file, words_of_written};
use file_devices::{Files, HostReason, read_again};
use std::alloc::Global;

// Said of a file of what a part comes to that isn't there.
const NOT_DECIDED: &str = "no such file or directory: the part isn't decided yet";

/// The line behind a fault of `part`, where there is one.
pub(crate) fn line_of_part<F: Files>(
    alloc: Global,
    files: &F,
    names: &PartNames<'_>,
    most: MostParts,
    fault: &PartsFault,
) -> Option<Vec<u8>>
    ensures { IfSome result (λ line. TellsOfParting (F.holds files.now) (F.failing files.now) (parting.names_of names.now) fault.now line.items) }
{
    let PartsFault::Job(fault) = fault else {
        return None;
    };
    if let Some(line) = words_of_book(alloc, files, names.book, fault) {
        return Some(line);
    }
    if let Some(line) = words_of_file(alloc, files, names.batch, FileKind::Batch, fault) {
        return Some(line);
    }
    line_of_folder_written(alloc, files, names.folder, most, fault)
}

// Of the first file of a folder of at most so many parts that can't be written.
fn line_of_folder_written<F: Files>(
    alloc: Global,
    files: &F,
    folder: &str,
    most: MostParts,
    fault: &JobFault,
) -> Option<Vec<u8>>
    ensures { IfSome result (λ line. TellsOfFolderWritten (F.failing files.now) folder.now fault.now line.items) }
{
    for part in 0..most.count() {
        let written = [PartFile::Book, PartFile::Batch];
        if let Some(line) = line_of_written(alloc, files, folder, part, &written, fault) {
            return Some(line);
        }
    }
    let rest = rest_name(alloc, folder).ok()?;
    if let Some(line) = words_of_written(alloc, files, rest.as_str(), fault) {
        return Some(line);
    }
    let plan = plan_name(alloc, folder).ok()?;
    words_of_written(alloc, files, plan.as_str(), fault)
}

/// The line behind a fault of `decide`, where there is one.
pub(crate) fn line_of_decide<F: Files>(
    alloc: Global,
    files: &F,
    folder: &str,
    part: u32,
    fault: &PartsFault,
) -> Option<Vec<u8>>
    ensures { IfSome result (λ line. TellsOfDeciding (F.holds files.now) (F.failing files.now) folder.now part fault.now line.items) }
{
    match fault {
        PartsFault::Job(fault) => line_of_decide_job(alloc, files, folder, part, fault),
        PartsFault::Part(part, PartFault::Unreadable) => {
            let read = [PartFile::Book, PartFile::Batch];
            line_of_unread(alloc, files, folder, *part, &read)
        }
        _ => line_of_folder(alloc, files, folder, fault),
    }
}

// The same of the plan that isn't read, of the part's book or batch, or of what is written.
fn line_of_decide_job<F: Files>(
    alloc: Global,
    files: &F,
    folder: &str,
    part: u32,
    fault: &JobFault,
) -> Option<Vec<u8>>
    ensures { IfSome result (λ line. TellsOfDecidingJob (F.holds files.now) (F.failing files.now) folder.now part fault.now line.items) }
{
    match fault {
        JobFault::Unreadable => line_of_unread_plan(alloc, files, folder),
        JobFault::Book(_) => {
            let name = part_name(alloc, folder, part, PartFile::Book).ok()?;
            words_of_book(alloc, files, name.as_str(), fault)
        }
        JobFault::Batch(_) => {
            let name = part_name(alloc, folder, part, PartFile::Batch).ok()?;
            words_of_file(alloc, files, name.as_str(), FileKind::Batch, fault)
        }
        _ => {
            let written = [PartFile::Replies, PartFile::NewBook, PartFile::Decided];
            line_of_written(alloc, files, folder, part, &written, fault)
        }
    }
}

/// The line behind a fault of `join`, where there is one.
pub(crate) fn line_of_join<F: Files>(
    alloc: Global,
    files: &F,
    names: &JoinNames<'_>,
    fault: &PartsFault,
) -> Option<Vec<u8>>
    ensures { IfSome result (λ line. TellsOfJoining (F.holds files.now) (F.failing files.now) (joining.names_of names.now) fault.now line.items) }
{
    match fault {
        PartsFault::Job(fault) => line_of_join_job(alloc, files, names, fault),
        PartsFault::Part(part, PartFault::Unreadable) => {
            line_of_undecided(alloc, files, names.folder, *part)
        }
        _ => line_of_folder(alloc, files, names.folder, fault),
    }
}

// The same of the plan or the rest that isn't read, of a book or replies, or of what is written.
fn line_of_join_job<F: Files>(
    alloc: Global,
    files: &F,
    names: &JoinNames<'_>,
    fault: &JobFault,
) -> Option<Vec<u8>>
    ensures { IfSome result (λ line. TellsOfJoiningJob (F.holds files.now) (F.failing files.now) (joining.names_of names.now) fault.now line.items) }
{
    match fault {
        JobFault::Unreadable => {
            if let Some(line) = line_of_unread_plan(alloc, files, names.folder) {
                return Some(line);
            }
            let rest = rest_name(alloc, names.folder).ok()?;
            words_of_book(alloc, files, rest.as_str(), fault)
        }
        JobFault::Book(_) => line_of_rest_or_new_book(alloc, files, names.folder, fault),
        JobFault::Batch(_) => line_of_replies(alloc, files, names.folder, fault),
        _ => line_of_joined(alloc, files, names, fault),
    }
}

// Of the rest, or else of the first part whose new book has the fault.
fn line_of_rest_or_new_book<F: Files>(
    alloc: Global,
    files: &F,
    folder: &str,
    fault: &JobFault,
) -> Option<Vec<u8>>
    ensures { IfSome result (λ line. TellsOfRestOrNewBook (F.holds files.now) folder.now fault.now line.items) }
{
    let rest = rest_name(alloc, folder).ok()?;
    if let Some(line) = words_of_book(alloc, files, rest.as_str(), fault) {
        return Some(line);
    }
    line_of_new_book(alloc, files, folder, fault)
}

// Of the replies or the new book that can't be written.
fn line_of_joined<F: Files>(
    alloc: Global,
    files: &F,
    names: &JoinNames<'_>,
    fault: &JobFault,
) -> Option<Vec<u8>>
    ensures { IfSome result (λ line. TellsOfJoined (F.failing files.now) (joining.names_of names.now) fault.now line.items) }
{
    if let Some(line) = words_of_written(alloc, files, names.replies, fault) {
        return Some(line);
    }
    words_of_written(alloc, files, names.new_book, fault)
}

// How many parts the plan of a folder has.
fn count_of<F: Files>(alloc: Global, files: &F, folder: &str) -> Option<u32> {
    let open = open_plan(alloc, files, folder).ok()?;
    u32::try_from(open.plan.digests.len()).ok()
}

// Of the first part whose new book has the fault.
fn line_of_new_book<F: Files>(
    alloc: Global,
    files: &F,
    folder: &str,
    fault: &JobFault,
) -> Option<Vec<u8>>
    ensures { IfSome result (λ line. (part : ℕ) × IsLineOf (part_name folder.now part part_file.NewBook) (TellsOfOneBook (F.holds files.now) fault.now) line.items) }
{
    for part in 0..count_of(alloc, files, folder)? {
        let name = part_name(alloc, folder, part, PartFile::NewBook).ok()?;
        let line = words_of_book(alloc, files, name.as_str(), fault);
        if line.is_some() {
            return line;
        }
    }
    None
}

// Of the first part whose replies have the fault.
fn line_of_replies<F: Files>(
    alloc: Global,
    files: &F,
    folder: &str,
    fault: &JobFault,
) -> Option<Vec<u8>>
    ensures { IfSome result (λ line. (part : ℕ) × IsLineOf (part_name folder.now part part_file.Replies) (TellsOfOne (F.holds files.now) kind.Replies fault.now) line.items) }
{
    for part in 0..count_of(alloc, files, folder)? {
        let name = part_name(alloc, folder, part, PartFile::Replies).ok()?;
        let line = words_of_file(alloc, files, name.as_str(), FileKind::Replies, fault);
        if line.is_some() {
            return line;
        }
    }
    None
}

// Of the first of these files of a part that can't be written.
fn line_of_written<F: Files>(
    alloc: Global,
    files: &F,
    folder: &str,
    part: u32,
    written: &[PartFile],
    fault: &JobFault,
) -> Option<Vec<u8>>
    ensures { IfSome result (λ line. (file : File) × IsLineOf (part_name folder.now part file) (TellsOfWritten (F.failing files.now) fault.now) line.items) }
{
    for file in written {
        let name = part_name(alloc, folder, part, *file).ok()?;
        let line = words_of_written(alloc, files, name.as_str(), fault);
        if line.is_some() {
            return line;
        }
    }
    None
}

// Of the plan that can't be read.
fn line_of_unread_plan<F: Files>(alloc: Global, files: &F, folder: &str) -> Option<Vec<u8>>
    ensures { IfSome result (λ line. TellsUnread (F.holds files.now) (plan_name folder.now) line.items) }
{
    let plan = plan_name(alloc, folder).ok()?;
    words_of_book(alloc, files, plan.as_str(), &JobFault::Unreadable)
}

// Of the first of these files of a part that can't be read.
fn line_of_unread<F: Files>(
    alloc: Global,
    files: &F,
    folder: &str,
    part: u32,
    read: &[PartFile],
) -> Option<Vec<u8>>
    ensures { IfSome result (λ line. (file : File) × TellsUnread (F.holds files.now) (part_name folder.now part file) line.items) }
{
    for file in read {
        let name = part_name(alloc, folder, part, *file).ok()?;
        let line = words_of_book(alloc, files, name.as_str(), &JobFault::Unreadable);
        if line.is_some() {
            return line;
        }
    }
    None
}

// Of the first file of what a part comes to that can't be read.
fn line_of_undecided<F: Files>(alloc: Global, files: &F, folder: &str, part: u32) -> Option<Vec<u8>>
    ensures { IfSome result (λ line. TellsOfUndecided (F.holds files.now) folder.now part line.items) }
{
    for file in [PartFile::Replies, PartFile::NewBook, PartFile::Decided] {
        let line = line_of_missing(alloc, files, folder, part, file);
        if line.is_some() {
            return line;
        }
    }
    None
}

// Of a file of what a part comes to, where it can't be read. Where it isn't there, the part isn't decided yet.
#[tactic(auto, using(std::proofs::lemmas::Option::IfSome_then))]
fn line_of_missing<F: Files>(
    alloc: Global,
    files: &F,
    folder: &str,
    part: u32,
    file: PartFile,
) -> Option<Vec<u8>>
    ensures { IfSome result (λ line. TellsOfMissing (F.holds files.now) (part_name folder.now part file) line.items) }
{
    let name = part_name(alloc, folder, part, file).ok()?;
    if let Err(HostReason::NotFound) = read_again(alloc, files, name.as_str()) {
        return line_of_words(alloc, name.as_str(), NOT_DECIDED);
    }
    words_of_book(alloc, files, name.as_str(), &JobFault::Unreadable)
}
