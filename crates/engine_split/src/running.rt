ghost use Rattle.std.specs.Prelude.{◌≤◌, length, IfOk};
ghost use Rattle.issuer_fold.specs.Run.{IsRun};

use crate::alone::decide_alone;
use crate::together::decide_together;
use engine_workers::{Hook, Workers};
use issuer_fold::RunOutcome;
use issuer_rows::{Book, Frame};
use issuer_view::Decide;
use split_state::Ledger;
use std::alloc::{AllocError, Global};
use std::sync::Wait;
use std::thread::Threads;
use std::time::Clock;

// Batches of at most so many messages are decided together without a look at the clock. What one worker alone would gain on them was not
// measured.
const FEW: usize = 1024;

/// Decides a batch of at most 65,536 bodies on several threads that share no one lock (Block-STM). Whatever the number of workers,
/// replies and book are those of deciding the messages one after another in the order of their arrival. The only fault is out of memory.
/// `started` is how many threads took part; one that can't be started is no fault. `committed` is how many messages the workers had
/// committed when the rest was decided one after another. One worker decides alone, on the book to which it commits. So does the first of
/// several in a batch of more than 1,024 bodies, as long as decisions are so light that sharing them costs more than it saves.
pub fn run_split<R: Clock + Threads + Wait + Sync, F: Decide + Sync, G: Hook>(
    rt: &R,
    alloc: Global,
    book: &Book,
    frames: &[Frame],
    workers: Workers,
    decision: &F,
    hook: &G,
) -> Result<RunOutcome, AllocError>
    requires { length frames.now ≤ 65536 }
    ensures { IfOk result (IsRun book.now frames.now workers) }
{
    if workers.count() > 1 && frames.len() <= FEW {
        let ledger = Ledger::new(alloc, book, frames)?;
        return decide_together(rt, alloc, book, frames, ledger, workers, decision, hook);
    }
    decide_alone(rt, alloc, book, frames, workers, decision, hook)
}
