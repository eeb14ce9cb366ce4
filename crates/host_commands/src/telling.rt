ghost use Rattle.std.specs.Prelude.{IfSome};
ghost use Rattle.host_commands.specs.Told.{TellsOfLogFile, TellsOfOpening};

use crate::opening_fault::OpeningFault;
use app_jobs::JobFault;
use app_reasons::{tell_with, words_of_book, words_of_log, words_of_written};
use file_devices::Files;
use file_laws::LogFault;
use std::alloc::Global;
use std::io::Write;

/// Tells why a host isn't opened, and behind it what is told of the book or the log, where that has the fault. What `err` doesn't take is
/// dropped.
pub(crate) fn tell_of_opening<F: Files, E: Write>(
    alloc: Global,
    files: &F,
    book: &str,
    log: &str,
    fault: &OpeningFault,
    err: &mut E,
) {
    let line = words_of_opening(alloc, files, book, log, fault);
    tell_with(fault, line, err);
}

/// What is told of the book or of the log of a host that isn't opened, in one line, where one of them has the fault. The file is opened once
/// more.
pub fn words_of_opening<F: Files>(
    alloc: Global,
    files: &F,
    book: &str,
    log: &str,
    fault: &OpeningFault,
) -> Option<Vec<u8>>
    ensures { IfSome result (λ line. TellsOfOpening (F.holds files.now) (F.failing files.now) book.now log.now fault.now line.items) }
{
    match fault {
        OpeningFault::Unreadable => words_of_book(alloc, files, book, &JobFault::Unreadable),
        OpeningFault::Book(fault) => words_of_book(alloc, files, book, &JobFault::Book(*fault)),
        OpeningFault::Log(fault) => words_of_log_file(alloc, files, log, fault),
        OpeningFault::OutOfMemory => None,
    }
}

// What is told of a log that is read and written.
fn words_of_log_file<F: Files>(
    alloc: Global,
    files: &F,
    log: &str,
    fault: &LogFault,
) -> Option<Vec<u8>>
    ensures { IfSome result (λ line. TellsOfLogFile (F.holds files.now) (F.failing files.now) fault.now log.now line.items) }
{
    if matches!(fault, LogFault::Failed) {
        if let Some(line) = words_of_written(alloc, files, log, &JobFault::Unwritable) {
            return Some(line);
        }
    }
    words_of_log(alloc, files, log, fault)
}
