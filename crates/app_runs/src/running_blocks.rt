ghost use Rattle.std.specs.Prelude.{◌≤◌, length};
ghost use Rattle.app_jobs.specs.Deciding.{DecidesBlockFiles};
ghost use Rattle.file_blocks.specs.BlockDecider.{DecidesInPlace};
ghost use Rattle.file_devices.specs.BatchNames.{names_of};

use crate::deciding::decide_block_by;
use app_jobs::{BlockCount, Halt, decide_blocks};
use engine_workers::{Engine, Workers};
use file_batch::Strictness;
use file_devices::{BatchNames, Files};
use issuer_fold::InPlace;
use issuer_rows::{Book, Frame};
use std::alloc::{AllocError, Global};
use std::sync::Wait;
use std::thread::Threads;
use std::time::Clock;

/// Decides a block file, block after block, files to files: those of more than 1,024 bodies by so many workers of an engine. Returns how
/// many blocks and bodies were decided, or why not all, and which blocks are kept. Its faults are those of
/// [`decide_blocks`](app_jobs::decide_blocks).
pub fn run_blocks<R: Clock + Threads + Wait + Sync, F: Files>(
    rt: &R,
    alloc: Global,
    files: &mut F,
    names: &BatchNames,
    workers: Workers,
    engine: Engine,
    strictness: Strictness,
) -> Result<BlockCount, Halt>
    ensures decides { DecidesBlockFiles F.is_known F.holds F.failing strictness files.old files.new (names_of names.now) result }
{
    let decide = |book: &mut Book, frames: &[Frame]| -> Result<InPlace, AllocError>
        requires { length frames.now ≤ 65536 }
        ensures { DecidesInPlace book.entry.now frames.entry.now book.exit.now result }
    { decide_block_by(rt, alloc, book, frames, workers, engine) };
    decide_blocks(rt, alloc, files, names, strictness, &decide)
}
