ghost use Rattle.std.specs.Prelude.{◌≡◌, ◌≤◌, length, IfOk, IfSome};
ghost use Rattle.engine_parts.specs.TwoBooks.{joined};
ghost use Rattle.file_batch.specs.Processing.{IsFold};
ghost use Rattle.issuer_rows.specs.Fold.{replies_to, rows_after};
ghost use Rattle.app_runs.specs.Journaled.{IsRunJournal};

use crate::deciding::has_few_rows;
use crate::read_alike::are_read_alike;
use engine_locked::run_traced;
use engine_parts::put_book;
use engine_workers::{NoHook, Workers};
use issuer_fold::RunOutcome;
use issuer_rows::{Book, Frame};
use issuer_rules::Shipped;
use parts_books::book_for;
use std::alloc::{AllocError, Global};
use std::sync::Wait;
use std::thread::Threads;
use stm_journal_text::Entry;

/// Decides a batch of at most 65,536 bodies by so many workers, on a book that is taken over and given back behind them, with the journal of
/// the run. Of a book with many rows the core has those that the bodies may need, so that no cost grows with the book. It fails only where
/// memory runs out.
pub(crate) fn trace_on<R: Threads + Wait + Sync>(
    rt: &R,
    alloc: Global,
    book: Book,
    frames: &[Frame],
    workers: Workers,
) -> Result<(RunOutcome, Vec<Entry>), AllocError>
    requires { length frames.now ≤ 65536 }
    ensures fold { IfOk result (λ run. IsFold book frames.now run.0) }
    ensures journal { IfOk result (λ run. IsRunJournal book frames.now run.1.items run.0.committed) }
{
    if has_few_rows(&book, frames) {
        return run_traced(rt, alloc, &book, frames, workers, &Shipped, &NoHook);
    }
    match trace_needed(rt, alloc, &book, frames, workers)? {
        Some((outcome, entries)) => {
            let mut whole = book;
            put_book(&mut whole, &outcome.book)?;
            let outcome = RunOutcome {
                replies: outcome.replies,
                book: whole,
                started: outcome.started,
                committed: outcome.committed,
            };
            Ok((outcome, entries))
        }
        None => run_traced(rt, alloc, &book, frames, workers, &Shipped, &NoHook),
    }
}

// The same on the rows that the bodies may need: the outcome's book has these alone. `None` where the journal reads a row that the book has
// otherwise, which doesn't happen.
#[tactic(auto, using(parts_books::proofs::Enough::are_enough, crate::proofs::OnMoreRows::journal_over))]
fn trace_needed<R: Threads + Wait + Sync>(
    rt: &R,
    alloc: Global,
    book: &Book,
    frames: &[Frame],
    workers: Workers,
) -> Result<Option<(RunOutcome, Vec<Entry>)>, AllocError>
    requires { length frames.now ≤ 65536 }
    ensures replies { IfOk result (λ seen. IfSome seen (λ run. run.0.replies.items ≡ replies_to book.now frames.now)) }
    ensures book { IfOk result (λ seen. IfSome seen (λ run. joined book.now run.0.book ≡ rows_after book.now frames.now)) }
    ensures journal { IfOk result (λ seen. IfSome seen (λ run. IsRunJournal book.now frames.now run.1.items run.0.committed)) }
{
    let needed = book_for(alloc, book, frames)?;
    let (outcome, entries) = run_traced(rt, alloc, &needed, frames, workers, &Shipped, &NoHook)?;
    if !are_read_alike(&needed, book, &entries) {
        return Ok(None);
    }
    Ok(Some((outcome, entries)))
}
