ghost use Rattle.std.specs.Prelude.{◌≡◌, ◌≤◌, length, IfOk};
ghost use Rattle.engine_parts.specs.TwoBooks.{joined};
ghost use Rattle.file_batch.specs.Processing.{AnswersFold};
ghost use Rattle.file_blocks.specs.BlockDecider.{DecidesInPlace};
ghost use Rattle.issuer_rows.specs.Fold.{replies_to, rows_after};

use engine_locked::run;
use engine_parts::{put_book, put_book_noted, run_parts};
use engine_split::run_split;
use engine_workers::{Engine, NoHook, Workers};
use issuer_fold::{Formers, InPlace, RunOutcome, decide_in_place};
use issuer_rows::{Book, Frame};
use issuer_rules::Shipped;
use parts_books::book_for;
use std::alloc::{AllocError, Global};
use std::sync::Wait;
use std::thread::Threads;
use std::time::Clock;

// How many rows a book has at most for each body of a batch, so that an engine is given all of it: to copy so few costs less than to look
// for those that the bodies may need.
const FEW_ROWS: usize = 8;

// A block of at most so many bodies is decided one after another: an engine's workers, which are started for each block anew, take longer.
const FEW_BODIES: usize = 1024;

/// Whether an engine is given all of a book for these bodies.
pub(crate) fn has_few_rows(book: &Book, frames: &[Frame]) -> bool {
    book.len() <= frames.len().saturating_mul(FEW_ROWS)
}

/// Decides a batch of at most 65,536 bodies by so many workers of an engine, on a book that is taken over and given back behind them. Of a
/// book with many rows the engine sees those that the bodies may need, so that no cost grows with the book. It fails only where memory runs
/// out.
pub fn decide_by<R: Clock + Threads + Wait + Sync>(
    rt: &R,
    alloc: Global,
    book: Book,
    frames: &[Frame],
    workers: Workers,
    engine: Engine,
) -> Result<RunOutcome, AllocError>
    requires { length frames.now ≤ 65536 }
    ensures { AnswersFold book frames.now result }
{
    if has_few_rows(&book, frames) {
        return decide_by_engine(rt, alloc, &book, frames, workers, engine);
    }
    let mut whole = book;
    let outcome = decide_needed(rt, alloc, &whole, frames, workers, engine)?;
    put_book(&mut whole, &outcome.book)?;
    Ok(RunOutcome {
        replies: outcome.replies,
        book: whole,
        started: outcome.started,
        committed: outcome.committed,
    })
}

/// Decides a block of at most 65,536 bodies on a book itself: one of more than 1,024 by so many workers of an engine, if there are several.
/// It fails only where memory runs out, and the book is then what it was.
pub(crate) fn decide_block_by<R: Clock + Threads + Wait + Sync>(
    rt: &R,
    alloc: Global,
    book: &mut Book,
    frames: &[Frame],
    workers: Workers,
    engine: Engine,
) -> Result<InPlace, AllocError>
    requires { length frames.now ≤ 65536 }
    ensures { DecidesInPlace book.old frames.now book.new result }
{
    if workers.count() == 1 || frames.len() <= FEW_BODIES {
        return decide_in_place(alloc, book, frames, &Shipped);
    }
    decide_block_together(rt, alloc, book, frames, workers, engine)
}

// The same by an engine, on the rows of the book that the bodies may need. What these have become is written over them.
fn decide_block_together<R: Clock + Threads + Wait + Sync>(
    rt: &R,
    alloc: Global,
    book: &mut Book,
    frames: &[Frame],
    workers: Workers,
    engine: Engine,
) -> Result<InPlace, AllocError>
    requires { length frames.now ≤ 65536 }
    ensures { DecidesInPlace book.old frames.now book.new result }
{
    let outcome = decide_needed(rt, alloc, book, frames, workers, engine)?;
    let mut formers = Formers::new(alloc);
    match put_book_noted(book, &outcome.book, &mut formers) {
        Ok(()) => Ok(InPlace {
            replies: outcome.replies,
            formers,
        }),
        Err(fault) => {
            formers.give_back(book);
            Err(fault)
        }
    }
}

// Decides a batch of at most 65,536 bodies on the rows of a book that they may need: the outcome's book has these alone, as they are behind
// the bodies. It fails only where memory runs out.
#[tactic(auto, using(parts_books::proofs::Enough::are_enough))]
fn decide_needed<R: Clock + Threads + Wait + Sync>(
    rt: &R,
    alloc: Global,
    book: &Book,
    frames: &[Frame],
    workers: Workers,
    engine: Engine,
) -> Result<RunOutcome, AllocError>
    requires { length frames.now ≤ 65536 }
    ensures replies { IfOk result (λ outcome. outcome.replies.items ≡ replies_to book.now frames.now) }
    ensures book { IfOk result (λ outcome. joined book.now outcome.book ≡ rows_after book.now frames.now) }
{
    let needed = book_for(alloc, book, frames)?;
    decide_by_engine(rt, alloc, &needed, frames, workers, engine)
}

// Decides a batch by an engine, which leaves the book as it is and makes the one behind the bodies.
fn decide_by_engine<R: Clock + Threads + Wait + Sync>(
    rt: &R,
    alloc: Global,
    book: &Book,
    frames: &[Frame],
    workers: Workers,
    engine: Engine,
) -> Result<RunOutcome, AllocError>
    requires { length frames.now ≤ 65536 }
    ensures { AnswersFold book.now frames.now result }
{
    match engine {
        Engine::Locked => run(rt, alloc, book, frames, workers, &Shipped, &NoHook),
        Engine::Split => run_split(rt, alloc, book, frames, workers, &Shipped, &NoHook),
        Engine::Parts => run_parts(rt, alloc, book, frames, workers, &Shipped),
    }
}
