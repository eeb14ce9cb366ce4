ghost use Rattle.std.specs.Prelude.{◌≡◌, ℕ, ◌<◌, ◌≤◌, length, true, IfOk, IsTrue, Some, slice_get, zip};
ghost use Rattle.std.specs.List.{AllByRecursion};
ghost use Rattle.std.specs.Thread.{IsSync};
ghost use Rattle.engine_parts.specs.Decided.{AreDecided, bodies_of};
ghost use Rattle.issuer_fold.specs.Run.{IsRun};
ghost use Rattle.issuer_laws.specs.Parts.{AreApart};
ghost use Rattle.issuer_words.specs.Words.{replies_to, rows_after};

use crate::decided_part::DecidedPart;
use crate::deciding::decide_part;
use crate::joining::join_parts;
use crate::on_copy::decide_on_copy;
use crate::parts_plan::PartsPlan;
use crate::planning::plan_parts;
use engine_workers::Workers;
use issuer_fold::{Prefix, RunOutcome, decide_all_by};
use issuer_rows::{Book, Frame};
use issuer_view::Decide;
use std::alloc::{AllocError, Global};
use std::thread;
use std::thread::Threads;

// Batches of fewer messages are decided one after another: starting threads costs more than they save.
const LONG: usize = 4096;

/// Decides a batch of at most 65,536 bodies in parts of which no two need the same row, as many as there are workers at most, each part on
/// a thread of its own, without a lock. Whatever the number of workers, replies and book are those of deciding the messages one after
/// another in the order of their arrival. The only fault is out of memory. `started` is how many parts there are: a part whose thread
/// can't be started is decided by the one that would have started it. A batch of one part, or of fewer than 4,096 bodies, is decided one
/// message after another.
pub fn run_parts<R: Threads + Sync, F: Decide + Sync>(
    rt: &R,
    alloc: Global,
    book: &Book,
    frames: &[Frame],
    workers: Workers,
    decision: &F,
) -> Result<RunOutcome, AllocError>
    requires { length frames.now ≤ 65536 }
    ensures { IfOk result (IsRun book.now frames.now workers) }
{
    if frames.len() < LONG {
        return decide_alone(alloc, book, frames, workers, decision);
    }
    run_apart(rt, alloc, book, frames, workers, decision)
}

/// The same, in parts however few the bodies are.
pub fn run_apart<R: Threads + Sync, F: Decide + Sync>(
    rt: &R,
    alloc: Global,
    book: &Book,
    frames: &[Frame],
    workers: Workers,
    decision: &F,
) -> Result<RunOutcome, AllocError>
    requires { length frames.now ≤ 65536 }
    ensures { IfOk result (IsRun book.now frames.now workers) }
{
    if workers.count() == 1 {
        return decide_alone(alloc, book, frames, workers, decision);
    }
    let plan = plan_parts(alloc, book, frames, workers.count())?;
    if plan.count() == 1 {
        return decide_alone(alloc, book, frames, workers, decision);
    }
    decide_apart(rt, alloc, book, frames, workers, &plan, decision)
}

// Decides all messages one after another.
fn decide_alone<F: Decide>(
    alloc: Global,
    book: &Book,
    frames: &[Frame],
    workers: Workers,
    decision: &F,
) -> Result<RunOutcome, AllocError>
    requires { length frames.now ≤ 65536 }
    ensures { IfOk result (IsRun book.now frames.now workers) }
{
    let _ = workers.count();
    let prefix = decide_all_by(alloc, Prefix::new(alloc, book.copy()?), frames, decision)?;
    let Prefix {
        count,
        book,
        replies,
        ..
    } = prefix;
    Ok(RunOutcome {
        replies,
        book,
        started: 1,
        committed: count,
    })
}

// Decides each part on a thread of its own, the last on this one, and joins them.
fn decide_apart<R: Threads + Sync, F: Decide + Sync>(
    rt: &R,
    alloc: Global,
    book: &Book,
    frames: &[Frame],
    workers: Workers,
    plan: &PartsPlan,
    decision: &F,
) -> Result<RunOutcome, AllocError>
    requires few { length frames.now ≤ 65536 }
    requires most { plan.now.count ≤ workers }
    requires each { length plan.now.parts ≡ length frames.now }
    requires apart { AreApart book.now (zip plan.now.parts frames.now) }
    ensures { IfOk result (IsRun book.now frames.now workers) }
{
    let count = plan.count();
    let last = count as usize - 1;
    let parts = plan.parts();
    let (others, mine) = decide_all_parts(rt, alloc, book, frames, parts, last, decision)?;
    let (book, replies) = join_parts(rt, alloc, parts, &others, mine)?;
    Ok(RunOutcome {
        replies,
        book,
        started: count,
        committed: frames.len() as u32,
    })
}

// Decides all parts but the last over the opening book, and the last on a copy of it.
fn decide_all_parts<R: Threads + Sync, F: Decide + Sync>(
    rt: &R,
    alloc: Global,
    opening: &Book,
    frames: &[Frame],
    parts: &[u32],
    last: usize,
    decision: &F,
) -> Result<(Vec<DecidedPart>, Prefix), AllocError>
    requires few { length frames.now ≤ 65536 }
    requires each { length parts.now ≡ length frames.now }
    ensures others { IfOk result (λ decided. length decided.0.items ≡ last) }
    ensures decided { IfOk result (λ decided. (part : ℕ) (one : DecidedPart) → slice_get decided.0.items part ≡ Some one → AreDecided opening.now (bodies_of part parts.now frames.now) one) }
    ensures replies { IfOk result (λ decided. decided.1.replies.items ≡ replies_to opening.now (bodies_of last parts.now frames.now)) }
    ensures book { IfOk result (λ decided. decided.1.book ≡ rows_after opening.now (bodies_of last parts.now frames.now)) }
{
    let (others, mine) = thread::join(
        rt,
        || -> Result<Vec<DecidedPart>, AllocError>
            requires { IsSync R.row × IsSync F.row × (length parts.now ≡ length frames.now) }
            ensures others { IfOk result (λ decided. length decided.items ≡ last) }
            ensures decided { IfOk result (λ decided. (part : ℕ) (one : DecidedPart) → slice_get decided.items part ≡ Some one → AreDecided opening.entry.now (bodies_of part parts.entry.now frames.entry.now) one) }
        { decide_others(rt, alloc, opening, frames, parts, last, decision) },
        || -> Result<Prefix, AllocError>
            requires { (length parts.now ≡ length frames.now) × (length frames.now ≤ 65536) }
            ensures replies { IfOk result (λ prefix. prefix.replies.items ≡ replies_to opening.entry.now (bodies_of last parts.entry.now frames.entry.now)) }
            ensures book { IfOk result (λ prefix. prefix.book ≡ rows_after opening.entry.now (bodies_of last parts.entry.now frames.entry.now)) }
        { decide_on_copy(alloc, opening, frames, parts, last, decision) },
    );
    Ok((others?, mine?))
}

// Decides the first parts, so many, each on a thread of its own where one can be started.
fn decide_others<R: Threads + Sync, F: Decide + Sync>(
    rt: &R,
    alloc: Global,
    opening: &Book,
    frames: &[Frame],
    parts: &[u32],
    count: usize,
    decision: &F,
) -> Result<Vec<DecidedPart>, AllocError>
    requires { length parts.now ≡ length frames.now }
    ensures others { IfOk result (λ decided. length decided.items ≡ count) }
    ensures decided { IfOk result (λ decided. (part : ℕ) (one : DecidedPart) → slice_get decided.items part ≡ Some one → AreDecided opening.now (bodies_of part parts.now frames.now) one) }
{
    let decided = thread::map_indices(
        rt,
        alloc,
        count,
        &|part| -> DecidedPart
            requires { length parts.now ≡ length frames.now }
            ensures { result.is_whole ≡ true → AreDecided opening.entry.now (bodies_of part parts.entry.now frames.entry.now) result }
        { decide_part(alloc, opening, frames, parts, part, decision) },
    )?;
    if !are_whole(&decided) {
        return Err(AllocError);
    }
    Ok(decided)
}

// Whether all messages of these parts are decided.
fn are_whole(parts: &[DecidedPart]) -> bool
    ensures { IsTrue result → AllByRecursion (λ part. part.is_whole ≡ true) parts.now }
{
    for part in parts {
        if !part.is_whole {
            return false;
        }
    }
    true
}
