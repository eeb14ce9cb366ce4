ghost use Rattle.app_jobs.specs.Deciding.{DecidesBlockFiles};
ghost use Rattle.file_blocks.specs.BlockDecider.{DecidesInPlace};
ghost use Rattle.file_devices.specs.BatchNames.{names_of};

use crate::block_count::BlockCount;
use crate::deciding_blocks::decide_blocks;
use crate::halt::Halt;
use file_batch::Strictness;
use file_devices::{BatchNames, Files};
use issuer_fold::{InPlace, decide_in_place};
use issuer_rows::{Book, Frame};
use issuer_rules::Shipped;
use std::alloc::{AllocError, Global};
use std::sync::Wait;
use std::thread::Threads;

/// Decides the blocks of a file one message after another, on the book itself, files to files. Returns how many blocks and bodies were
/// decided, or why not all, and which blocks are kept. Its faults are those of [`decide_blocks`](crate::decide_blocks).
pub fn serial_blocks<R: Threads + Wait + Sync, F: Files>(
    rt: &R,
    alloc: Global,
    files: &mut F,
    names: &BatchNames,
    strictness: Strictness,
) -> Result<BlockCount, Halt>
    ensures decides { DecidesBlockFiles F.is_known F.holds F.failing strictness files.old files.new (names_of names.now) result }
{
    let decide = |book: &mut Book, frames: &[Frame]| -> Result<InPlace, AllocError>
        ensures { DecidesInPlace book.entry.now frames.entry.now book.exit.now result }
    { decide_in_place(alloc, book, frames, &Shipped) };
    decide_blocks(rt, alloc, files, names, strictness, &decide)
}
