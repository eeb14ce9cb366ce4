ghost use Rattle.std.specs.Prelude.{IfErr, IfOk};
ghost use Rattle.log_commands.specs.Faults.{IsUnanswered};
ghost use Rattle.log_commands.specs.Names.{names_of};
ghost use Rattle.log_commands.specs.Replayed.{IsAnswered};

use crate::command_fault::CommandFault;
use crate::locked_input::LockedInput;
use crate::locked_log::LockedLog;
use crate::log_names::LogNames;
use crate::written_log::WrittenLog;
use app_jobs::write_book;
use book_text::digest_of_book;
use file_devices::Files;
use issuer_rows::Book;
use issuer_rules::Shipped;
use log_replay::{measure_log, replay_log};
use std::alloc::Global;
use std::sync::Wait;
use std::thread::Threads;

/// Decides the messages of a log on this book, which has to be the log's, and writes what that comes to. The log is read twice: the count
/// of the blocks stands before their replies.
pub(crate) fn answer_log<R: Threads + Wait + Sync, F: Files, L: LockedLog>(
    rt: &R,
    alloc: Global,
    files: &F,
    names: &LogNames<'_>,
    book: Book,
    log: &L,
) -> Result<WrittenLog<F::Output>, CommandFault>
    ensures answered { IfOk result (IsAnswered F.Output.is_known F.Output.written (F.is_known files.now) (L.is_known log.now) (L.bytes log.now) book) }
    ensures fault { IfErr result (IsUnanswered (L.is_known log.now) (L.may_fail log.now) (L.bytes log.now) (F.failing files.now) (names_of names.now) book) }
{
    let digest = digest_of_book(alloc, &book)?;
    let size = measure_log(alloc, LockedInput::new(log), &digest)?;
    let mut replies = files.create(names.replies)?;
    let replayed = replay_log(
        alloc,
        LockedInput::new(log),
        &digest,
        size,
        book,
        &mut replies,
        &Shipped,
    )?;
    let new_book = write_book(rt, alloc, files, names.new_book, &replayed.book)?;
    Ok(WrittenLog {
        count: replayed.count,
        torn: size.torn,
        replies,
        new_book,
    })
}
