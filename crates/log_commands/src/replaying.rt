ghost use Rattle.std.specs.Prelude.{◌≡◌, ◌≢◌, ℕ, List};
ghost use Rattle.file_devices.specs.Holding.{IsAsItWas};
ghost use Rattle.log_commands.specs.Names.{names_of};
ghost use Rattle.log_commands.specs.Replays.{Ends};

use crate::locked_logs::LockedLogs;
use crate::log_names::LogNames;
use crate::log_replay_files::replay_files;
use crate::telling::tell_of_replay;
use file_devices::Files;
use std::alloc::Global;
use std::io::Write;
use std::sync::Wait;
use std::thread::Threads;

/// Decides a log again, as [`replay_files`] does, and returns the exit status: 0 done, 1 a fault, 2 names of one file. A fault is a line on
/// `err`, with what is told of the file that has it behind it; a torn tail that was left out is told there too, by its size. What `err`
/// doesn't take is dropped.
pub fn replay<R: Threads + Wait + Sync, F: Files, L: LockedLogs, E: Write>(
    rt: &R,
    alloc: Global,
    files: &mut F,
    logs: &L,
    names: &LogNames<'_>,
    err: &mut E,
) -> u8
    ensures ends { Ends F.is_known F.holds F.failing (L.holds logs.now) (L.reading logs.now) (L.in_use logs.now) files.old files.new (names_of names.now) result }
    ensures others { (other : List ℕ) → other ≢ names.now.replies.now → other ≢ names.now.new_book.now → IsAsItWas (F.holds files.old) (F.holds files.new) other }
    ensures known { F.is_known files.old → F.is_known files.new }
{
    match replay_files(rt, alloc, files, logs, names) {
        Ok(replayed) => {
            if replayed.torn > 0 {
                let _ = write!(err, "torn {}\n", replayed.torn);
            }
            0
        }
        Err(fault) => {
            tell_of_replay(alloc, files, names, &fault, err);
            fault.status()
        }
    }
}
