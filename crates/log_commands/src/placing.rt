ghost use Rattle.app_jobs.specs.Deciding.{PutsAnswer};
ghost use Rattle.app_jobs.specs.Faults.{MayBeRefused};
ghost use Rattle.log_commands.specs.Names.{names_of};

use crate::log_names::LogNames;
use app_jobs::{JobFault, both, written};
use file_devices::Files;
use std::alloc::Global;

/// Puts replies and the book after them in place, replies first. After a fault all files are as they were.
pub(crate) fn put_answer<F: Files>(
    alloc: Global,
    files: &mut F,
    names: &LogNames<'_>,
    replies: F::Output,
    new_book: F::Output,
) -> Result<(), JobFault>
    ensures puts { PutsAnswer F.is_known F.holds (MayBeRefused (F.failing files.old) (names_of names.now)) files.old files.new (names_of names.now)
        (F.Output.is_known replies → F.holds files.new names.now.replies.now (F.Output.written replies))
        (F.Output.is_known new_book → F.holds files.new names.now.new_book.now (F.Output.written new_book)) result }
{
    let replies = written(alloc, names.replies, replies)?;
    let new_book = written(alloc, names.new_book, new_book)?;
    let answer = both(alloc, replies, new_book)?;
    Ok(files.put_in_place(answer)?)
}
