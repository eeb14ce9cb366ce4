ghost use Rattle.std.specs.Prelude.{◌≡◌, ◌≤◌, length, IfOk};
ghost use Rattle.issuer_fold.specs.Run.{IsRun};

use crate::cost_probe::CostProbe;
use crate::together::{decide_together, outcome_of};
use engine_workers::{Hook, Workers};
use issuer_fold::RunOutcome;
use issuer_rows::{Book, Frame};
use issuer_view::{Decide, ReadSet, WriteSet};
use split_state::Ledger;
use std::alloc::{AllocError, Global};
use std::sync::Wait;
use std::thread::Threads;
use std::time::Clock;

/// Decides a batch by one worker, on the book to which it commits: no other worker's rows are to be seen, so none is kept beside the book.
/// Where decisions are heavy, and there are other workers, the rest is decided together. What a decision that stopped leaves is decided
/// by the shipped decision, without the hook.
pub(crate) fn decide_alone<R: Clock + Threads + Wait + Sync, F: Decide + Sync, G: Hook>(
    rt: &R,
    alloc: Global,
    book: &Book,
    frames: &[Frame],
    workers: Workers,
    decision: &F,
    hook: &G,
) -> Result<RunOutcome, AllocError>
    requires { length frames.now ≤ 65536 }
    ensures { IfOk result (IsRun book.now frames.now workers) }
{
    let mut watch = CostProbe::new(workers);
    let mut ledger = Ledger::new(alloc, book, frames)?;
    decide_first(rt, alloc, &mut ledger, &mut watch, decision, hook);
    if watch.is_heavy() && !ledger.is_done() {
        let seen = ledger.book().copy()?;
        return decide_together(rt, alloc, &seen, frames, ledger, workers, decision, hook);
    }
    outcome_of(alloc, ledger, frames, 1)
}

// Decides one message after another, until all are decided, a decision stops, or they are found heavy.
fn decide_first<R: Clock, F: Decide, G: Hook>(
    clock: &R,
    alloc: Global,
    ledger: &mut Ledger<'_>,
    watch: &mut CostProbe,
    decision: &F,
    hook: &G,
)
    ensures opening { ledger.new.opening ≡ ledger.old.opening }
    ensures frames { ledger.new.frames ≡ ledger.old.frames }
{
    let mut reads = ReadSet::new(alloc);
    let mut writes = WriteSet::new(alloc);
    watch.begin(clock);
    for _ in 0..u32::MAX {
        if watch.is_heavy() || ledger.is_done() {
            break;
        }
        let index = ledger.count();
        hook.before_decide(index, 0);
        let decided = ledger.decide_next(decision, &mut reads, &mut writes);
        if decided.is_err() {
            break;
        }
        hook.after_record(index, 0);
        watch.note(clock);
    }
}
