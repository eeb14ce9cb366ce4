ghost use Rattle.std.specs.Prelude.{◌≡◌, ◌⊎◌, ◌≤◌, ◌++◌, Ok, IfOk, IfErr, IsTrue, OnOk, length};
ghost use Rattle.std.specs.FinMap as map;
ghost use Rattle.book_laws.specs.Reading.{reading};
ghost use Rattle.book_laws.specs.Text.{book_text};
ghost use Rattle.book_text.specs.Back.{IsReadAsBook};
ghost use Rattle.issuer_rows.specs.Fold.{Rows};
ghost use Rattle.file_batch.specs.Device.{UsesDevice};
ghost use Rattle.file_batch.specs.Words.{AreReplyBodies, is_of_bytes, replies_text};
ghost use Rattle.app_jobs.specs.Faults.{IsWritingBothFault, IsPuttingFault, IsWritingFault, MayNotBePut};

use crate::job_fault::JobFault;
use book_writer::{BookWriter, OfRows, Sorting};
use file_batch::{BatchFault, put_all, write_replies};
use file_devices::{Files, Pieces, Sink};
use issuer_fold::RunOutcome;
use issuer_rows::Book;
use std::alloc::Global;
use std::marker::Brand;
use std::sync::Wait;
use std::thread::Threads;

/// Writes the text of a book to a file that can be put in the place of this name. It fails where that can't be made or written, or
/// memory runs out.
pub fn write_book<R: Threads + Wait + Sync, F: Files>(
    rt: &R,
    alloc: Global,
    files: &F,
    name: &str,
    book: &Book,
) -> Result<F::Output, JobFault>
    ensures written { IfOk result (λ output. F.is_known files.now → F.Output.is_known output × (F.Output.written output ≡ book_text book.now)) }
    // It is read again as the book.
    ensures back { OnOk result (reading (book_text book.now) ≡ Ok book.now) }
    ensures fault { IfErr result (IsPuttingFault (MayNotBePut (F.failing files.now) name.now)) }
{
    let mut output = files.create(name)?;
    let mut put_none = || -> Result<(), BatchFault>
        ensures { result ≡ Ok tt }
    { Ok(()) };
    write_answer(rt, alloc, &mut put_none, book, &mut output)?;
    Ok(output)
}

/// Writes the replies to a batch of at most 65,536 bodies, and the book after it, whose rows are sorted meanwhile. It fails where one of
/// them isn't written, or memory runs out.
pub fn write_outcome<R: Threads + Wait + Sync, W: Sink>(
    rt: &R,
    alloc: Global,
    outcome: &RunOutcome,
    replies: &mut W,
    new_book: &mut W,
) -> Result<(), JobFault>
    requires few { length outcome.now.replies.items ≤ 65536 }
    ensures replies { OnOk result (W.is_known replies.old → W.is_known replies.new × (W.written replies.new ≡ W.written replies.old ++ replies_text outcome.now.replies.items)) }
    ensures bodies { OnOk result (AreReplyBodies outcome.now.replies.items) }
    ensures book { OnOk result (W.is_known new_book.old → W.is_known new_book.new
        × (W.written new_book.new ≡ W.written new_book.old ++ book_text outcome.now.book)) }
    ensures back { OnOk result (reading (book_text outcome.now.book) ≡ Ok outcome.now.book) }
    ensures fault { IfErr result (λ fault. IsWritingFault (W.may_fail replies.old) ⊥ fault ⊎ IsPuttingFault (W.may_fail new_book.old) fault) }
{
    let answers = outcome.replies.as_slice();
    let mut put_replies = || -> Result<(), BatchFault>
        ensures device { UsesDevice W.is_known W.has_failed W.may_fail replies.entry.now replies.exit.now result }
        ensures ok { OnOk result (W.is_known replies.entry.now → W.written replies.exit.now ≡ W.written replies.entry.now ++ replies_text answers.entry.now) }
        ensures bodies { OnOk result (AreReplyBodies answers.entry.now) }
        ensures fit { length answers.entry.now ≤ 65536 → IfErr result (λ e. ¬ IsTrue (is_of_bytes e)) }
    { write_replies(alloc, answers, replies) };
    write_answer(rt, alloc, &mut put_replies, &outcome.book, new_book)
}

/// Writes the replies to a batch by this call, and then the text of the book after it. Where the book has many rows, other threads sort
/// them while the replies are written, and help to make their text. It fails where the call does, where the book isn't written, or where
/// memory runs out.
pub(crate) fn write_answer<R: Threads + Wait + Sync, W: Sink, P: FnMut() -> Result<(), BatchFault>>(
    rt: &R,
    alloc: Global,
    put_replies: &mut P,
    book: &Book,
    new_book: &mut W,
) -> Result<(), JobFault>
    requires { P.pre put_replies.old }
    ensures replies { OnOk result (P.step put_replies.old (Ok tt) put_replies.new) }
    ensures book { OnOk result (W.is_known new_book.old → W.is_known new_book.new × (W.written new_book.new ≡ W.written new_book.old ++ book_text book.now)) }
    // It is read again as the book.
    ensures back { OnOk result (reading (book_text book.now) ≡ Ok book.now) }
    ensures fault { IfErr result (IsWritingBothFault P.step put_replies.old put_replies.new (W.may_fail new_book.old)) }
{
    write_sorted::<Brand, R, W, P>(rt, alloc, put_replies, book, new_book)
}

// The same, where the rows of the book are those of the types.
fn write_sorted<
    B: OfRows + Send + Sync,
    R: Threads + Wait + Sync,
    W: Sink,
    P: FnMut() -> Result<(), BatchFault>,
>(rt: &R, alloc: Global, put_replies: &mut P, book: &Book, new_book: &mut W) -> Result<(), JobFault>
    requires called { P.pre put_replies.old }
    requires rows { map.entries book.now ≡ B.rows }
    ensures replies { OnOk result (P.step put_replies.old (Ok tt) put_replies.new) }
    ensures book { OnOk result (W.is_known new_book.old → W.is_known new_book.new × (W.written new_book.new ≡ W.written new_book.old ++ book_text book.now)) }
    ensures back { OnOk result (reading (book_text book.now) ≡ Ok book.now) }
    ensures fault { IfErr result (IsWritingBothFault P.step put_replies.old put_replies.new (W.may_fail new_book.old)) }
{
    let sorting: Sorting<'_, B> = Sorting::new(alloc, book);
    let writer = BookWriter::new(&sorting)?;
    write_helped(rt, put_replies, new_book, &writer)
}

// Writes replies by a call, and then the text of a writer's rows. Other threads help, where there are many.
fn write_helped<
    B: OfRows + Send + Sync,
    R: Threads + Wait + Sync,
    W: Sink,
    P: FnMut() -> Result<(), BatchFault>,
>(
    rt: &R,
    put_replies: &mut P,
    new_book: &mut W,
    writer: &BookWriter<'_, '_, B>,
) -> Result<(), JobFault>
    requires { P.pre put_replies.old }
    ensures replies { OnOk result (P.step put_replies.old (Ok tt) put_replies.new) }
    ensures book { OnOk result ((book : Rows) → B.rows ≡ map.entries book → W.is_known new_book.old
        → W.is_known new_book.new × (W.written new_book.new ≡ W.written new_book.old ++ book_text book)) }
    ensures back { OnOk result (IsReadAsBook B.rows) }
    ensures fault { IfErr result (IsWritingBothFault P.step put_replies.old put_replies.new (W.may_fail new_book.old)) }
{
    writer.with_help(
        rt,
        &mut || -> Result<(), JobFault>
            requires { P.pre put_replies.now }
            ensures replies { OnOk result (P.step put_replies.entry.now (Ok tt) put_replies.exit.now) }
            ensures book { OnOk result ((book : Rows) → B.rows ≡ map.entries book → W.is_known new_book.entry.now
                → W.is_known new_book.exit.now × (W.written new_book.exit.now ≡ W.written new_book.entry.now ++ book_text book)) }
            ensures back { OnOk result (IsReadAsBook B.rows) }
            ensures fault { IfErr result (IsWritingBothFault P.step put_replies.entry.now put_replies.exit.now (W.may_fail new_book.entry.now)) }
        { write_in_turn(rt, put_replies, new_book, writer) },
    )
}

// The same in this thread.
fn write_in_turn<
    B: OfRows,
    R: Threads + Wait + Sync,
    W: Sink,
    P: FnMut() -> Result<(), BatchFault>,
>(
    rt: &R,
    put_replies: &mut P,
    new_book: &mut W,
    writer: &BookWriter<'_, '_, B>,
) -> Result<(), JobFault>
    requires { P.pre put_replies.old }
    ensures replies { OnOk result (P.step put_replies.old (Ok tt) put_replies.new) }
    ensures book { OnOk result ((book : Rows) → B.rows ≡ map.entries book → W.is_known new_book.old
        → W.is_known new_book.new × (W.written new_book.new ≡ W.written new_book.old ++ book_text book)) }
    ensures back { OnOk result (IsReadAsBook B.rows) }
    ensures fault { IfErr result (IsWritingBothFault P.step put_replies.old put_replies.new (W.may_fail new_book.old)) }
{
    if let Err(fault) = put_replies() {
        return Err(JobFault::Batch(fault));
    }
    write_rows(rt, new_book, writer)
}

// Writes the text of a writer's rows, in this thread.
fn write_rows<B: OfRows, R: Threads + Wait + Sync, W: Sink>(
    rt: &R,
    sink: &mut W,
    writer: &BookWriter<'_, '_, B>,
) -> Result<(), JobFault>
    ensures written { OnOk result ((book : Rows) → B.rows ≡ map.entries book → W.is_known sink.old
        → W.is_known sink.new × (W.written sink.new ≡ W.written sink.old ++ book_text book)) }
    ensures back { OnOk result (IsReadAsBook B.rows) }
    ensures fault { IfErr result (IsPuttingFault (W.may_fail sink.old)) }
{
    let mut text = writer.pieces(rt)?;
    write_pieces(sink, &mut text)
}

/// Writes all pieces that are still to be made.
pub(crate) fn write_pieces<W: Sink, P: Pieces>(sink: &mut W, pieces: &mut P) -> Result<(), JobFault>
    ensures written { OnOk result (W.is_known sink.old → W.is_known sink.new × (W.written sink.new ≡ W.written sink.old ++ P.rest pieces.old)) }
    ensures fault { IfErr result (IsPuttingFault (W.may_fail sink.old)) }
{
    for _ in 0..u64::MAX {
        if !pieces.make_next()? {
            return Ok(());
        }
        let Ok(()) = put_all(sink, pieces.piece()) else {
            return Err(JobFault::Unwritable);
        };
    }
    // Nobody waits for so many pieces.
    Err(JobFault::OutOfMemory)
}
