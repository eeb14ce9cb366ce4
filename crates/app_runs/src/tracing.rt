ghost use Rattle.std.specs.Prelude.{◌≡◌, ◌≢◌, ◌⊎◌, ◌≤◌, [], ◌∷◌, List, ℕ, IfOk, IfErr, OnErr, length, string_bytes};
ghost use Rattle.file_batch.specs.Counting.{Admits};
ghost use Rattle.file_batch.specs.Words.{AreAsTheyWere, IsAsItWas, names_of};
ghost use Rattle.stm_journal_text.specs.Journal.{AreEntries, journal_text};
ghost use Rattle.app_jobs.specs.Audited.{AreDecided};
ghost use Rattle.app_jobs.specs.Faults.{IsAnsweringFault, IsPuttingFault, MayNotBePut};
ghost use Rattle.app_runs.specs.Journaled.{IsAnsweredWithJournal, IsDecidedWithJournal, IsDecidingFaultWithJournal, PutsRun};

use crate::traced_answer::TracedAnswer;
use crate::tracing_rows::trace_on;
use app_jobs::{JobFault, admit, open_inputs, write_outcome, written};
use engine_workers::Workers;
use file_batch::{BodyCount, Strictness, put_all};
use file_devices::{BatchNames, Files, Written};
use issuer_rows::{Book, Frame};
use std::alloc::{AllocError, Global};
use std::sync::Wait;
use std::thread::Threads;
use std::time::Clock;
use stm_journal_text::{Entry, write_journal};

/// Decides a batch by so many workers, files to files, as [`run_batch`](crate::run_batch), and puts the journal of the run in place
/// before the new book. Its faults are those of [`decide_batch`](app_jobs::decide_batch); after one all files are as they were.
pub fn run_batch_with_journal<R: Clock + Threads + Wait + Sync, F: Files>(
    rt: &R,
    alloc: Global,
    files: &mut F,
    names: &BatchNames,
    workers: Workers,
    journal: &str,
    strictness: Strictness,
) -> Result<BodyCount, JobFault>
    ensures decided { IfOk result (IsDecidedWithJournal (F.is_known files.old) (F.holds files.old) (F.holds files.new)
        (names_of names.now) journal.now) }
    ensures admitted { IfOk result (Admits strictness) }
    ensures fault { IfErr result (IsDecidingFaultWithJournal strictness (F.holds files.old) (F.failing files.old) (names_of names.now) journal.now) }
    ensures kept { OnErr result (AreAsTheyWere (F.holds files.old) (F.holds files.new)) }
    ensures others { (other : List ℕ) → other ≢ string_bytes names.now.replies → other ≢ string_bytes names.now.new_book → other ≢ journal.now
        → IsAsItWas (F.holds files.old) (F.holds files.new) other }
    ensures known { F.is_known files.old → F.is_known files.new }
{
    let (book, frames) = open_inputs(rt, alloc, files, names)?;
    let answer = answer_traced(rt, alloc, files, names, book, &frames, workers, journal)?;
    let count = answer.count;
    admit(strictness, count)?;
    put_run(alloc, files, names, journal, answer)?;
    Ok(count)
}

// Decides the batch, whose bodies these are, on its book, and writes what that comes to, with the journal of the run.
fn answer_traced<R: Clock + Threads + Wait + Sync, F: Files>(
    rt: &R,
    alloc: Global,
    files: &F,
    names: &BatchNames,
    book: Book,
    frames: &[Frame],
    workers: Workers,
    journal: &str,
) -> Result<TracedAnswer<F::Output>, JobFault>
    requires held { AreDecided (F.is_known files.now) (F.holds files.now) (names_of names.now) book frames.now }
    requires few { length frames.now ≤ 65536 }
    ensures answered { IfOk result (IsAnsweredWithJournal F.Output.is_known F.Output.written (F.is_known files.now) (F.holds files.now)
        (string_bytes names.now.batch) book) }
    ensures fault { IfErr result (IsAnsweringFault (F.holds files.now) (F.failing files.now) (names_of names.now)
        (MayNotBePut (F.failing files.now) (string_bytes names.now.new_book) ⊎ MayNotBePut (F.failing files.now) journal.now)) }
{
    let mut replies = files.create(names.replies.as_str())?;
    let (outcome, entries) = trace_on(rt, alloc, book, frames, workers)?;
    let mut new_book = files.create(names.new_book.as_str())?;
    write_outcome(rt, alloc, &outcome, &mut replies, &mut new_book)?;
    let journal = log_run(alloc, files, journal, &entries)?;
    Ok(TracedAnswer {
        count: BodyCount::of(frames),
        replies,
        journal,
        new_book,
    })
}

// Writes the text of a journal to a file that can be put in the place of this name.
fn log_run<F: Files>(
    alloc: Global,
    files: &F,
    name: &str,
    entries: &[Entry],
) -> Result<F::Output, JobFault>
    ensures written { IfOk result (λ output. F.is_known files.now → F.Output.is_known output × (F.Output.written output ≡ journal_text entries.now)) }
    ensures are { IfOk result (λ output. AreEntries entries.now) }
    ensures fault { IfErr result (IsPuttingFault (MayNotBePut (F.failing files.now) name.now)) }
{
    let text = write_journal(alloc, entries)?;
    let mut output = files.create(name)?;
    match put_all(&mut output, &text) {
        Ok(()) => Ok(output),
        Err(_) => Err(JobFault::Unwritable),
    }
}

// Puts replies, journal and new book in place, in this order.
fn put_run<F: Files>(
    alloc: Global,
    files: &mut F,
    names: &BatchNames,
    journal: &str,
    answer: TracedAnswer<F::Output>,
) -> Result<(), JobFault>
    ensures puts { PutsRun F.is_known F.holds F.failing F.Output.is_known F.Output.written files.old files.new (names_of names.now) journal.now answer result }
{
    let TracedAnswer {
        count: _,
        replies,
        journal: log,
        new_book,
    } = answer;
    let replies = written(alloc, names.replies.as_str(), replies)?;
    let log = written(alloc, journal, log)?;
    let new_book = written(alloc, names.new_book.as_str(), new_book)?;
    let run = all_three(alloc, replies, log, new_book)?;
    Ok(files.put_in_place(run)?)
}

// Three files that were written, in this order.
fn all_three<O: Drop>(
    alloc: Global,
    first: Written<O>,
    second: Written<O>,
    third: Written<O>,
) -> Result<Vec<Written<O>>, AllocError>
    ensures { IfOk result (λ files. files.items ≡ first ∷ second ∷ third ∷ []) }
{
    let mut files = Vec::new(alloc);
    files.push(first)?;
    files.push(second)?;
    files.push(third)?;
    Ok(files)
}
