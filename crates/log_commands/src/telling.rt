//! What is told behind a fault of a command on a log. What `err` doesn't take is dropped.

use crate::command_fault::CommandFault;
use crate::log_names::LogNames;
use app_reasons::{FileKind, FileUse, UsedFile, tell_with, words_of_log, words_of_used};
use file_devices::Files;
use std::alloc::Global;
use std::io::Write;

/// Tells why a log is not decided again, and behind it what is told of the first of the files that has the fault.
pub(crate) fn tell_of_replay<F: Files, E: Write>(
    alloc: Global,
    files: &F,
    names: &LogNames<'_>,
    fault: &CommandFault,
    err: &mut E,
) {
    let used = [
        UsedFile::new(names.book, FileUse::Book),
        UsedFile::new(names.log, FileUse::Log),
        UsedFile::new(names.replies, FileUse::Written),
        UsedFile::new(names.new_book, FileUse::Written),
    ];
    tell(alloc, files, names.log, &used, fault, err);
}

/// The same of an audit.
pub(crate) fn tell_of_audit<F: Files, E: Write>(
    alloc: Global,
    files: &F,
    names: &LogNames<'_>,
    fault: &CommandFault,
    err: &mut E,
) {
    let used = [
        UsedFile::new(names.book, FileUse::Shared),
        UsedFile::new(names.replies, FileUse::Shared),
        UsedFile::new(names.new_book, FileUse::Shared),
        UsedFile::new(names.book, FileUse::Book),
        UsedFile::new(names.replies, FileUse::Bodies(FileKind::BlockReplies)),
        UsedFile::new(names.new_book, FileUse::Book),
        UsedFile::new(names.log, FileUse::Log),
    ];
    tell(alloc, files, names.log, &used, fault, err);
}

// Tells a fault of a log, or of the first of these files that has it.
fn tell<F: Files, E: Write>(
    alloc: Global,
    files: &F,
    log: &str,
    used: &[UsedFile<'_>],
    fault: &CommandFault,
    err: &mut E,
) {
    let line = match fault {
        CommandFault::Usage(_) => None,
        CommandFault::Log(fault) => words_of_log(alloc, files, log, fault),
        CommandFault::Job(fault) => words_of_used(alloc, files, used, fault),
    };
    tell_with(fault, line, err);
}
