ghost use Rattle.std.specs.Prelude.{◌≤◌, length};
ghost use Rattle.file_batch.specs.Processing.{AnswersFold};
ghost use Rattle.file_devices.specs.BatchNames.{names_of};
ghost use Rattle.app_jobs.specs.Deciding.{DecidesFiles};

use crate::deciding::decide_by;
use app_jobs::{JobFault, decide_batch, serial_batch};
use engine_workers::{Engine, Workers};
use file_batch::{BodyCount, Strictness};
use file_devices::{BatchNames, Files};
use issuer_fold::RunOutcome;
use issuer_rows::{Book, Frame};
use std::alloc::{AllocError, Global};
use std::sync::Wait;
use std::thread::Threads;
use std::time::Clock;

/// Decides a batch by so many workers of an engine, files to files. Whatever their number and the engine, the files hold what deciding
/// one message after another comes to. One worker shares with nobody, so it decides as [`serial_batch`](app_jobs::serial_batch), whatever
/// the engine. Returns how many bodies the batch has. Its faults are those of [`decide_batch`](app_jobs::decide_batch).
pub fn run_batch<R: Clock + Threads + Wait + Sync, F: Files>(
    rt: &R,
    alloc: Global,
    files: &mut F,
    names: &BatchNames,
    workers: Workers,
    engine: Engine,
    strictness: Strictness,
) -> Result<BodyCount, JobFault>
    ensures decides { DecidesFiles F.is_known F.holds F.failing strictness files.old files.new (names_of names.now) result }
{
    if workers.count() == 1 {
        return serial_batch(rt, alloc, files, names, strictness);
    }
    let decide = |book: Book, frames: &[Frame]| -> Result<RunOutcome, AllocError>
        requires { length frames.now ≤ 65536 }
        ensures { AnswersFold book frames.entry.now result }
    { decide_by(rt, alloc, book, frames, workers, engine) };
    decide_batch(rt, alloc, files, names, strictness, &decide)
}
