ghost use Rattle.std.specs.Prelude.{◌≤◌, IfOk, IfErr, length, string_bytes};
ghost use Rattle.file_batch.specs.Processing.{IsDecider};
ghost use Rattle.file_devices.specs.BatchNames.{names_of};
ghost use Rattle.app_jobs.specs.Audited.{AreDecided};
ghost use Rattle.app_jobs.specs.Decided.{IsAnswered};
ghost use Rattle.app_jobs.specs.Deciding.{DecidesFiles};
ghost use Rattle.app_jobs.specs.Faults.{IsAnsweringFault, MayNotBePut};

use crate::admitting::admit;
use crate::job_fault::JobFault;
use crate::opening::open_inputs;
use crate::placing::put_answer;
use crate::writing::write_outcome;
use crate::written_answer::WrittenAnswer;
use file_batch::{BodyCount, Strictness};
use file_devices::{BatchNames, Files};
use issuer_fold::RunOutcome;
use issuer_rows::{Book, Frame};
use std::alloc::{AllocError, Global};
use std::sync::Wait;
use std::thread::Threads;

/// Decides the batch of one file on the book of another, and puts the replies and the new book in place. `decide` has to return the
/// fold. The batch is read while another thread reads the book, and the new book's rows are sorted while the replies are written. Returns
/// how many bodies the batch has. After a fault all files are as they were. The fault is the first one in the order book, batch; that the
/// batch has bodies that are no message, where it is strict; a call on a file that failed; or out of memory.
pub fn decide_batch<
    R: Threads + Wait + Sync,
    F: Files,
    E: Fn(Book, &[Frame]) -> Result<RunOutcome, AllocError>,
>(
    rt: &R,
    alloc: Global,
    files: &mut F,
    names: &BatchNames,
    strictness: Strictness,
    decide: &E,
) -> Result<BodyCount, JobFault>
    // It may be called with a batch, and what it returns is the fold.
    requires decider { IsDecider E.pre E.post (λ rows. rows) (λ frames. frames.now) decide.now }
    ensures decides { DecidesFiles F.is_known F.holds F.failing strictness files.old files.new (names_of names.now) result }
{
    let (book, frames) = open_inputs(rt, alloc, files, names)?;
    let answer = answer_batch(rt, alloc, files, names, book, &frames, decide)?;
    admit(strictness, answer.count)?;
    put_answer(alloc, files, names, answer.replies, answer.new_book)?;
    Ok(answer.count)
}

// Decides the batch, whose bodies these are, on its book, and writes what that comes to.
fn answer_batch<
    R: Threads + Wait + Sync,
    F: Files,
    E: Fn(Book, &[Frame]) -> Result<RunOutcome, AllocError>,
>(
    rt: &R,
    alloc: Global,
    files: &F,
    names: &BatchNames,
    book: Book,
    frames: &[Frame],
    decide: &E,
) -> Result<WrittenAnswer<F::Output>, JobFault>
    requires decider { IsDecider E.pre E.post (λ rows. rows) (λ frames. frames.now) decide.now }
    requires held { AreDecided (F.is_known files.now) (F.holds files.now) (names_of names.now) book frames.now }
    requires few { length frames.now ≤ 65536 }
    ensures answered { IfOk result (λ answer. IsAnswered F.Output.is_known F.Output.written (F.is_known files.now) (F.holds files.now)
        (string_bytes names.now.batch) book answer.count answer.replies answer.new_book) }
    ensures fault { IfErr result (IsAnsweringFault (F.holds files.now) (F.failing files.now) (names_of names.now)
        (MayNotBePut (F.failing files.now) (string_bytes names.now.new_book))) }
{
    let mut replies = files.create(names.replies.as_str())?;
    let outcome = decide(book, frames)?;
    let mut new_book = files.create(names.new_book.as_str())?;
    write_outcome(rt, alloc, &outcome, &mut replies, &mut new_book)?;
    Ok(WrittenAnswer {
        count: BodyCount::of(frames),
        replies,
        new_book,
    })
}
