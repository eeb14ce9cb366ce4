ghost use Rattle.std.specs.Prelude.{◌≡◌, ◌≤◌, ℕ, List, IfOk, IfErr, OnOk, length};
ghost use Rattle.std.specs.Thread.{IsSync};
ghost use Rattle.book_laws.specs.Reading.{IsAnswer, reading};
ghost use Rattle.file_batch.specs.Words.{IsBatchOf, IsReplyFileOf, IsThere, names_of};
ghost use Rattle.stm_journal_text.specs.Journal.{AreEntries, journal_text};
ghost use Rattle.app_jobs.specs.Audited.{AreDecided};
ghost use Rattle.app_jobs.specs.Decided.{IsBookOf};
ghost use Rattle.app_jobs.specs.Faults.{IsBatchFault, IsBookFault, IsOpeningFault, IsReplyFileFault};
ghost use Rattle.app_jobs.specs.JournalFaults.{IsJournalFault};

use crate::job_fault::JobFault;
use book_json::{JsonFault, read_book};
use file_batch::{BatchFault, read_batch, read_replies};
use file_devices::{BatchNames, Files, read_file};
use issuer_rows::{Book, Frame, ReplyBody};
use std::alloc::Global;
use std::sync::Wait;
use std::thread::{Threads, join};
use stm_journal_text::{Entry, read_journal};

/// The book of the file of this name. It fails with the first fault of the book, where a call on the file fails, or where memory runs out.
pub fn open_book<R: Threads + Wait + Sync, F: Files>(
    rt: &R,
    alloc: Global,
    files: &F,
    name: &str,
) -> Result<Book, JobFault>
    ensures book { IfOk result (IsBookOf (F.holds files.now) name.now) }
    ensures there { OnOk result (F.is_known files.now → IsThere (F.holds files.now) name.now) }
    ensures fault { IfErr result (IsBookFault (F.holds files.now) (F.failing files.now) name.now) }
{
    let text = read_file(alloc, files, name)?;
    match read_book(rt, alloc, &text) {
        Ok(book) => Ok(book),
        Err(fault) => Err(JobFault::Book(fault)),
    }
}

/// The messages of the batch of this name. It fails where the file can't be opened or read, with the first fault of its bytes, or where memory
/// runs out.
pub fn open_batch<F: Files>(alloc: Global, files: &F, name: &str) -> Result<Vec<Frame>, JobFault>
    ensures count { IfOk result (λ frames. length frames.items ≤ 65536) }
    ensures there { OnOk result (F.is_known files.now → IsThere (F.holds files.now) name.now) }
    ensures fault { IfErr result (IsBatchFault (F.holds files.now) (F.failing files.now) name.now) }
    ensures frames { (bytes : List ℕ) → F.holds files.now name.now bytes → IfOk result (λ frames. IsBatchOf bytes frames.items) }
{
    let mut input = files.open(name)?;
    match read_batch(alloc, &mut input) {
        Ok(frames) => Ok(frames),
        Err(fault) => Err(JobFault::Batch(fault)),
    }
}

/// The book of a run and the messages of its batch. The batch is read while another thread reads the book's text. The fault is the first
/// one in this order: the book's, and then the batch's.
pub fn open_inputs<R: Threads + Wait + Sync, F: Files>(
    rt: &R,
    alloc: Global,
    files: &F,
    names: &BatchNames,
) -> Result<(Book, Vec<Frame>), JobFault>
    ensures held { IfOk result (λ inputs. AreDecided (F.is_known files.now) (F.holds files.now) (names_of names.now) inputs.0 inputs.1.items) }
    ensures count { IfOk result (λ inputs. length inputs.1.items ≤ 65536) }
    ensures fault { IfErr result (IsOpeningFault (F.holds files.now) (F.failing files.now) (names_of names.now)) }
{
    let text = read_file(alloc, files, names.book.as_str())?;
    let bytes = text.as_slice();
    let batch = names.batch.as_str();
    let (book, frames) = join(
        rt,
        || -> Result<Book, JsonFault>
            requires { IsSync R.row }
            ensures { IsAnswer (reading bytes.entry.now) result }
        { read_book(rt, alloc, bytes) },
        || -> Result<Vec<Frame>, JobFault>
            ensures count { IfOk result (λ frames. length frames.items ≤ 65536) }
            ensures there { OnOk result (F.is_known files.entry.now → IsThere (F.holds files.entry.now) batch.entry.now) }
            ensures fault { IfErr result (IsBatchFault (F.holds files.entry.now) (F.failing files.entry.now) batch.entry.now) }
            ensures frames { (bytes : List ℕ) → F.holds files.entry.now batch.entry.now bytes → IfOk result (λ frames. IsBatchOf bytes frames.items) }
        { open_batch(alloc, files, batch) },
    );
    match book {
        Ok(book) => Ok((book, frames?)),
        Err(fault) => Err(JobFault::Book(fault)),
    }
}

/// The replies of the file of this name. It fails so, too; a device that fails is an unreadable file.
pub fn open_replies<F: Files>(
    alloc: Global,
    files: &F,
    name: &str,
) -> Result<Vec<ReplyBody>, JobFault>
    ensures there { OnOk result (F.is_known files.now → IsThere (F.holds files.now) name.now) }
    ensures fault { IfErr result (IsReplyFileFault (F.holds files.now) (F.failing files.now) name.now) }
    ensures replies { (bytes : List ℕ) → F.holds files.now name.now bytes → IfOk result (λ replies. IsReplyFileOf bytes replies.items) }
{
    let mut input = files.open(name)?;
    match read_replies(alloc, &mut input) {
        Ok(replies) => Ok(replies),
        Err(BatchFault::Device) => Err(JobFault::Unreadable),
        Err(fault) => Err(JobFault::Batch(fault)),
    }
}

/// The entries of the journal of this name.
pub(crate) fn open_journal<F: Files>(
    alloc: Global,
    files: &F,
    name: &str,
) -> Result<Vec<Entry>, JobFault>
    ensures are { IfOk result (λ entries. AreEntries entries.items) }
    ensures there { OnOk result (F.is_known files.now → IsThere (F.holds files.now) name.now) }
    ensures fault { IfErr result (IsJournalFault (F.holds files.now) (F.failing files.now) name.now) }
    ensures entries { (bytes : List ℕ) → F.holds files.now name.now bytes → IfOk result (λ entries. bytes ≡ journal_text entries.items) }
{
    let text = read_file(alloc, files, name)?;
    match read_journal(alloc, &text) {
        Ok(entries) => Ok(entries),
        Err(fault) => Err(JobFault::Journal(fault)),
    }
}
