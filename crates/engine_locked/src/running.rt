ghost use Rattle.std.specs.Prelude.{◌≡◌, ℕ, ◌≤◌, length, IfOk, IsTrue};
ghost use Rattle.engine_locked.specs.Journals.{IsCoreOf, IsJournalOf, AreCommitted, AreJournals, IsSomeEnd};
ghost use Rattle.issuer_fold.specs.Run.{IsRun, IsStarted};
ghost use Rattle.stm_journal.specs.Finished.{IsFinished};
ghost use Rattle.stm_journal_text.specs.Logged.{greatest};
ghost use Rattle.stm_core_laws.specs.Play.{opening_play};

use crate::alone::played_alone;
use crate::turns::LockedWorker;
use engine_workers::{Hook, Workers};
use issuer_fold::{Prefix, RunOutcome};
use issuer_rows::{Book, Frame};
use issuer_rules::decide_all;
use issuer_view::Decide;
use std::alloc::{AllocError, Global};
use std::sync::{Condvar, Mutex, Wait};
use std::thread;
use std::thread::Threads;
use stm_core::Core;
use stm_core_laws::{Limits, Seat};
use stm_journal::{Entry, SharedCore, Traced, Untraced};

/// Decides a batch of at most 65,536 bodies through the speculative core, on several threads (Block-STM). Whatever the number of
/// workers, replies and book are those of deciding the messages one after another in the order of their arrival. The only fault
/// is out of memory. `started` is how many threads took part; one that can't be started is no fault. `committed` is how many
/// messages the core had committed when the rest was decided one after another: all, unless no incarnation or epoch was left.
pub fn run<R: Threads + Wait + Sync, F: Decide + Sync, G: Hook>(
    rt: &R,
    alloc: Global,
    book: &Book,
    frames: &[Frame],
    workers: Workers,
    decision: &F,
    hook: &G,
) -> Result<RunOutcome, AllocError>
    requires { length frames.now ≤ 65536 }
    ensures run { IfOk result (IsRun book.now frames.now workers) }
    ensures journal { IfOk result (λ outcome. AreCommitted (opening_play book.now frames.now greatest) outcome.committed outcome.replies.items) }
{
    let limits = Limits {
        incarnation: u32::MAX,
        epoch: u64::MAX,
    };
    run_with_limits(rt, alloc, book, frames, workers, limits, decision, hook)
}

/// The same, with a core that comes to no greater incarnation and epoch; where it would, the rest is decided one after another. An epoch
/// of 0 counts as 1.
pub fn run_with_limits<R: Threads + Wait + Sync, F: Decide + Sync, G: Hook>(
    rt: &R,
    alloc: Global,
    book: &Book,
    frames: &[Frame],
    workers: Workers,
    limits: Limits,
    decision: &F,
    hook: &G,
) -> Result<RunOutcome, AllocError>
    requires { length frames.now ≤ 65536 }
    ensures run { IfOk result (IsRun book.now frames.now workers) }
    ensures journal { IfOk result (λ outcome. AreCommitted (opening_play book.now frames.now limits) outcome.committed outcome.replies.items) }
{
    let shared = Mutex::new(Untraced::with_limits(alloc, book, frames, limits)?);
    let started = work_together(rt, alloc, frames, workers, &shared, decision, hook);
    let core = finished_core(rt, alloc, book, frames, limits, shared.into_inner())?;
    outcome_of(alloc, core, book, frames, limits, started)
}

/// The same as `run`, with the journal: what was asked of the core, in order. It plays to a core that has committed `committed`
/// messages, all of them unless no incarnation or epoch was left, and whose replies begin those of the run.
pub fn run_traced<R: Threads + Wait + Sync, F: Decide + Sync, G: Hook>(
    rt: &R,
    alloc: Global,
    book: &Book,
    frames: &[Frame],
    workers: Workers,
    decision: &F,
    hook: &G,
) -> Result<(RunOutcome, Vec<Entry>), AllocError>
    requires { length frames.now ≤ 65536 }
    ensures run { IfOk result (λ run. IsRun book.now frames.now workers run.0) }
    ensures journal { IfOk result (λ run. IsJournalOf (opening_play book.now frames.now greatest) run.1.items run.0.committed run.0.replies.items) }
{
    let limits = Limits {
        incarnation: u32::MAX,
        epoch: u64::MAX,
    };
    let shared = Mutex::new(Traced::with_limits(alloc, book, frames, limits)?);
    let started = work_together(rt, alloc, frames, workers, &shared, decision, hook);
    let traced = finished(rt, alloc, book, frames, limits, shared.into_inner())?;
    let (core, entries) = traced.into_parts();
    let outcome = outcome_of(alloc, core, book, frames, limits, started)?;
    Ok((outcome, entries))
}

// The workers' core, if it is that of this run and has committed all; else that of a new one, which the caller plays alone.
#[tactic(auto, using(crate::proofs::Finished::some_end))]
fn finished_core<R: Wait>(
    rt: &R,
    alloc: Global,
    book: &Book,
    frames: &[Frame],
    limits: Limits,
    shared: Untraced,
) -> Result<Core, AllocError>
    requires { length frames.now ≤ 65536 }
    ensures of_run { IfOk result (IsCoreOf book.now frames.now limits) }
    ensures finished { IfOk result IsSomeEnd }
{
    if has_committed_all(shared.core(), book, frames, limits) {
        return Ok(shared.into_core());
    }
    core_anew(rt, alloc, book, frames, limits)
}

// The core of a new journaled one, which the caller plays alone.
fn core_anew<R: Wait>(
    rt: &R,
    alloc: Global,
    book: &Book,
    frames: &[Frame],
    limits: Limits,
) -> Result<Core, AllocError>
    requires { length frames.now ≤ 65536 }
    ensures of_run { IfOk result (IsCoreOf book.now frames.now limits) }
    ensures finished { IfOk result IsSomeEnd }
{
    match played_anew(rt, alloc, book, frames, limits) {
        Ok(traced) => {
            let (core, _) = traced.into_parts();
            Ok(core)
        }
        Err(fault) => Err(fault),
    }
}

// The workers' core with its journal, if it is that of this run and has committed all; else a new one, which the caller plays alone.
#[tactic(auto, using(crate::proofs::Finished::finished_all))]
fn finished<R: Wait>(
    rt: &R,
    alloc: Global,
    book: &Book,
    frames: &[Frame],
    limits: Limits,
    shared: Traced,
) -> Result<Traced, AllocError>
    requires { length frames.now ≤ 65536 }
    ensures of_run { IfOk result (λ traced. IsCoreOf book.now frames.now limits traced.core) }
    ensures finished { IfOk result (λ traced. IsFinished traced.core traced.entries) }
{
    if has_committed_all(shared.core(), book, frames, limits) {
        return Ok(shared);
    }
    played_anew(rt, alloc, book, frames, limits)
}

// A new core, which the caller plays alone.
fn played_anew<R: Wait>(
    rt: &R,
    alloc: Global,
    book: &Book,
    frames: &[Frame],
    limits: Limits,
) -> Result<Traced, AllocError>
    requires { length frames.now ≤ 65536 }
    ensures of_run { IfOk result (λ traced. IsCoreOf book.now frames.now limits traced.core) }
    ensures finished { IfOk result (λ traced. IsFinished traced.core traced.entries) }
{
    for _ in rt.forever() {
        let traced = played_alone(rt, alloc, book, frames, limits)?;
        if is_of_run(traced.core(), book, frames, limits) {
            return Ok(traced);
        }
    }
    unreachable!()
}

// Whether the core is of this book, these bodies and these limits, and has committed all.
fn has_committed_all(core: &Core, book: &Book, frames: &[Frame], limits: Limits) -> bool
    ensures of_run { IsTrue result → IsCoreOf book.now frames.now limits core.now }
    ensures all { IsTrue result → core.now.state.board.committed ≡ length core.now.state.frames }
{
    is_of_run(core, book, frames, limits) && core.committed() as usize == frames.len()
}

// Whether the core is of this book, these bodies and these limits.
fn is_of_run(core: &Core, book: &Book, frames: &[Frame], limits: Limits) -> bool
    ensures { IsTrue result → IsCoreOf book.now frames.now limits core.now }
{
    let bounded = Limits {
        incarnation: limits.incarnation,
        epoch: limits.epoch.max(1),
    };
    core.opened_with(book, frames) && core.limits() == bounded
}

// What the core committed, then what it left, decided one after another.
#[tactic(auto, using(issuer_fold::proofs::FoldLaws::rows_of_both, issuer_fold::proofs::FoldLaws::replies_of_both))]
fn outcome_of(
    alloc: Global,
    core: Core,
    book: &Book,
    frames: &[Frame],
    limits: Limits,
    started: u32,
) -> Result<RunOutcome, AllocError>
    requires few { length frames.now ≤ 65536 }
    requires of_run { IsCoreOf book.now frames.now limits core }
    ensures run { (workers : ℕ) → IsStarted started workers → IfOk result (IsRun book.now frames.now workers) }
    ensures journal { IfOk result (λ outcome. AreJournals (opening_play book.now frames.now limits) core outcome.committed outcome.replies.items) }
{
    let committed = core.committed();
    let prefix = core.into_prefix(alloc)?;
    let Prefix { book, replies, .. } = decide_all(alloc, prefix, frames)?;
    Ok(RunOutcome {
        replies,
        book,
        started,
        committed,
    })
}

// Starts the other workers and works as the first; returns how many took part.
fn work_together<C: SharedCore + Send, R: Threads + Wait + Sync, F: Decide + Sync, G: Hook>(
    rt: &R,
    alloc: Global,
    frames: &[Frame],
    workers: Workers,
    core: &Mutex<C>,
    decision: &F,
    hook: &G,
) -> u32
    ensures { IsStarted result workers }
{
    let count = workers.count();
    let condvar = Condvar::new();
    let parked = &condvar;
    thread::scope(
        thread::scope_env(),
        rt,
        move |scope| -> u32
            requires { IsStarted count 64 }
            ensures { IsStarted result count }
        {
            let mut started = 1u32;
            for number in 1..count {
                if scope
                    .spawn(move || work_at(rt, alloc, frames, core, number, decision, hook, parked))
                    .is_ok()
                {
                    started += 1;
                }
            }
            work_at(rt, alloc, frames, core, 0, decision, hook, parked);
            started
        },
    )
}

// A worker's turns, at the seat of this number.
fn work_at<C: SharedCore, R: Wait, F: Decide, G: Hook>(
    rt: &R,
    alloc: Global,
    frames: &[Frame],
    core: &Mutex<C>,
    number: u32,
    decision: &F,
    hook: &G,
    parked: &Condvar,
) {
    if let Some(seat) = Seat::new(number) {
        let worker = LockedWorker {
            rt,
            alloc,
            core,
            frames,
            decision,
            hook,
            parked,
        };
        worker.work(seat);
    }
}
