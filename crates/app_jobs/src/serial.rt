ghost use Rattle.std.specs.Prelude.{◌≡◌, ◌⊎◌, ◌++◌, Ok, IfOk, IfErr, OnOk, string_bytes};
ghost use Rattle.book_laws.specs.Reading.{reading};
ghost use Rattle.book_laws.specs.Text.{book_text};
ghost use Rattle.file_batch.specs.Device.{UsesDevice};
ghost use Rattle.file_devices.specs.BatchNames.{names_of};
ghost use Rattle.app_jobs.specs.Decided.{IsAnswered};
ghost use Rattle.app_jobs.specs.Deciding.{DecidesFiles};
ghost use Rattle.app_jobs.specs.Faults.{IsAnsweringFault, IsPuttingFault, IsWritingFault, MayNotBePut};

use crate::admitting::admit;
use crate::job_fault::JobFault;
use crate::opening::open_book;
use crate::placing::put_answer;
use crate::writing::write_answer;
use crate::written_answer::WrittenAnswer;
use file_batch::{Answered, BatchFault, BodyCount, Strictness, decide_in_order, put_all};
use file_devices::{BatchNames, Files, Sink};
use issuer_rows::Book;
use issuer_rules::Shipped;
use std::alloc::Global;
use std::sync::Wait;
use std::thread::Threads;

/// Decides a batch one message after another, files to files. Messages are decided while the next ones are read, and the new book's rows
/// are sorted while the replies are written. Returns how many bodies the batch has. Its faults are those of
/// [`decide_batch`](crate::decide_batch).
pub fn serial_batch<R: Threads + Wait + Sync, F: Files>(
    rt: &R,
    alloc: Global,
    files: &mut F,
    names: &BatchNames,
    strictness: Strictness,
) -> Result<BodyCount, JobFault>
    ensures decides { DecidesFiles F.is_known F.holds F.failing strictness files.old files.new (names_of names.now) result }
{
    let book = open_book(rt, alloc, files, names.book.as_str())?;
    let answer = answer_in_order(rt, alloc, files, names, book)?;
    admit(strictness, answer.count)?;
    put_answer(alloc, files, names, answer.replies, answer.new_book)?;
    Ok(answer.count)
}

// Decides the batch on a book, one message after another, and writes what that comes to.
fn answer_in_order<R: Threads + Wait + Sync, F: Files>(
    rt: &R,
    alloc: Global,
    files: &F,
    names: &BatchNames,
    book: Book,
) -> Result<WrittenAnswer<F::Output>, JobFault>
    ensures answered { IfOk result (λ answer. IsAnswered F.Output.is_known F.Output.written (F.is_known files.now) (F.holds files.now)
        (string_bytes names.now.batch) book answer.count answer.replies answer.new_book) }
    ensures fault { IfErr result (IsAnsweringFault (F.holds files.now) (F.failing files.now) (names_of names.now)
        (MayNotBePut (F.failing files.now) (string_bytes names.now.new_book))) }
{
    let mut batch = files.open(names.batch.as_str())?;
    let mut replies = files.create(names.replies.as_str())?;
    let answered = match decide_in_order(rt, alloc, book, &mut batch, &Shipped) {
        Ok(answered) => answered,
        Err(fault) => return Err(JobFault::Batch(fault)),
    };
    let mut new_book = files.create(names.new_book.as_str())?;
    write_answered(rt, alloc, &answered, &mut replies, &mut new_book)?;
    Ok(WrittenAnswer {
        count: answered.decided.count,
        replies,
        new_book,
    })
}

// Writes the replies to a batch, and the book after it.
fn write_answered<R: Threads + Wait + Sync, W: Sink>(
    rt: &R,
    alloc: Global,
    answered: &Answered,
    replies: &mut W,
    new_book: &mut W,
) -> Result<(), JobFault>
    ensures replies { OnOk result (W.is_known replies.old → W.is_known replies.new × (W.written replies.new ≡ W.written replies.old ++ answered.now.text.items)) }
    ensures book { OnOk result (W.is_known new_book.old → W.is_known new_book.new
        × (W.written new_book.new ≡ W.written new_book.old ++ book_text answered.now.decided.book)) }
    ensures back { OnOk result (reading (book_text answered.now.decided.book) ≡ Ok answered.now.decided.book) }
    ensures fault { IfErr result (λ fault. IsWritingFault (W.may_fail replies.old) ⊥ fault ⊎ IsPuttingFault (W.may_fail new_book.old) fault) }
{
    let text = answered.text.as_slice();
    let mut put_replies = || -> Result<(), BatchFault>
        ensures device { UsesDevice W.is_known W.has_failed W.may_fail replies.entry.now replies.exit.now result }
        ensures ok { OnOk result (W.is_known replies.entry.now → W.written replies.exit.now ≡ W.written replies.entry.now ++ text.entry.now) }
        ensures fault { IfErr result (λ e. e ≡ BatchFault.Device) }
    { put_all(replies, text) };
    write_answer(
        rt,
        alloc,
        &mut put_replies,
        &answered.decided.book,
        new_book,
    )
}
