ghost use Rattle.log_commands.specs.Names.{names_of};
ghost use Rattle.log_commands.specs.Replays.{Replays};

use crate::answering::answer_log;
use crate::apart::check_names;
use crate::claiming::claim_answer;
use crate::command_fault::CommandFault;
use crate::locked_logs::LockedLogs;
use crate::log_names::LogNames;
use crate::placing::put_answer;
use app_jobs::open_book;
use file_batch::BodyCount;
use file_devices::Files;
use std::alloc::Global;
use std::sync::Wait;
use std::thread::Threads;

/// What a log came to that was decided again.
#[derive(Clone, Copy, Debug)]
pub struct ReplayedFiles {
    /// How many messages it has, and how many bodies of them are none.
    pub count: BodyCount,
    /// How many bytes its torn tail has; 0 where there is none.
    pub torn: u64,
}

/// Decides the messages of a log again, one after another, on its opening book, and puts their replies, in blocks of 65,536, and the book
/// after them in place, both or, after a fault, none. The log stays as it is, and no host has it meanwhile. The first fault is told: of the
/// names, of files that are in use, of the book, of the log, then of what is written.
pub fn replay_files<R: Threads + Wait + Sync, F: Files, L: LockedLogs>(
    rt: &R,
    alloc: Global,
    files: &mut F,
    logs: &L,
    names: &LogNames<'_>,
) -> Result<ReplayedFiles, CommandFault>
    ensures replays { Replays F.is_known F.holds F.failing (L.holds logs.now) (L.reading logs.now) (L.in_use logs.now) files.old files.new (names_of names.now) result }
{
    check_names(alloc, files, names)?;
    let _claims = claim_answer(alloc, files, names)?;
    let book = open_book(rt, alloc, files, names.book)?;
    let log = logs.open(names.log)?;
    let answer = answer_log(rt, alloc, files, names, book, &log)?;
    let replayed = ReplayedFiles {
        count: answer.count,
        torn: answer.torn,
    };
    put_answer(alloc, files, names, answer.replies, answer.new_book)?;
    Ok(replayed)
}
