ghost use Rattle.std.specs.Prelude.{◌≡◌, ◌≤◌, IfOk, IfErr, length};
ghost use Rattle.app_audit.specs.Finding.{Finds};
ghost use Rattle.file_devices.specs.BatchNames.{names_of};
ghost use Rattle.issuer_rows.specs.Fold.{replies_to, rows_after};
ghost use Rattle.app_jobs.specs.Audited.{AreAnswers, AreHeld, IsAudited};
ghost use Rattle.app_jobs.specs.Faults.{IsAnswersFault, IsAuditingFault, IsFaultInOrder};
ghost use Rattle.app_jobs.specs.JournalFaults.{IsJournalAuditingFault};
ghost use Rattle.app_jobs.specs.Journaled.{IsAuditedWithJournal};

use crate::job_fault::JobFault;
use crate::opening::{open_book, open_inputs, open_journal, open_replies};
use app_audit::{Audit, audit, audit_journal};
use file_devices::{BatchNames, Files};
use issuer_rows::{Book, Frame, ReplyBody};
use std::alloc::Global;
use std::sync::Wait;
use std::thread::Threads;

/// Whether the files of replies and of the new book hold what deciding the batch on the book comes to; else what differs first. It fails
/// with the first fault of book, batch, replies and new book, in this order; where a call on a file fails; or where memory runs out.
pub fn audit_batch<R: Threads + Wait + Sync, F: Files>(
    rt: &R,
    alloc: Global,
    files: &F,
    names: &BatchNames,
) -> Result<Audit, JobFault>
    ensures audited { IfOk result (IsAudited (F.is_known files.now) (F.holds files.now)
        (names_of names.now)) }
    ensures fault { IfErr result (IsAuditingFault (F.holds files.now) (F.failing files.now)
        (names_of names.now)) }
{
    let run = open_run(rt, alloc, files, names)?;
    audit_run(alloc, &run)
}

// Whether replies and the book after them are what deciding the batch on the book comes to; else what differs first.
fn audit_run(alloc: Global, run: &AuditedRun) -> Result<Audit, JobFault>
    requires { length run.now.frames.items ≤ 65536 }
    ensures finds { IfOk result (Finds run.now.replies.items run.now.after (replies_to run.now.book run.now.frames.items) (rows_after run.now.book run.now.frames.items)) }
    ensures fault { IfErr result (λ fault. fault ≡ JobFault.OutOfMemory) }
{
    Ok(audit(alloc, &run.book, &run.frames, &run.replies, &run.after)?)
}

/// Whether the files of replies and of the new book hold what the journal plays to, which stands in a file of its own; else what differs
/// first. The journal is read last. It fails as [`audit_batch`] does, and behind that with the first wrong line of the journal, or where
/// a decision asks for a row that wasn't logged.
pub fn audit_batch_with_journal<R: Threads + Wait + Sync, F: Files>(
    rt: &R,
    alloc: Global,
    files: &F,
    names: &BatchNames,
    journal: &str,
) -> Result<Audit, JobFault>
    ensures audited { IfOk result (IsAuditedWithJournal (F.is_known files.now) (F.holds files.now)
        (names_of names.now) journal.now) }
    ensures fault { IfErr result (IsJournalAuditingFault (F.holds files.now) (F.failing files.now)
        (names_of names.now) journal.now) }
{
    let run = open_run(rt, alloc, files, names)?;
    let entries = open_journal(alloc, files, journal)?;
    match audit_journal(
        alloc,
        &run.book,
        &run.frames,
        &entries,
        &run.replies,
        &run.after,
    ) {
        Ok(found) => Ok(found),
        Err(fault) => Err(JobFault::Journal(fault)),
    }
}

// What an audit looks at: a batch and its book, the replies to it, and the book after it.
#[derive(Drop)]
struct AuditedRun {
    book: Book,
    frames: Vec<Frame>,
    replies: Vec<ReplyBody>,
    after: Book,
}

// What the files of these names hold. They are read in the order book, batch, replies, new book.
fn open_run<R: Threads + Wait + Sync, F: Files>(
    rt: &R,
    alloc: Global,
    files: &F,
    names: &BatchNames,
) -> Result<AuditedRun, JobFault>
    ensures held { IfOk result (λ run. AreHeld (F.is_known files.now) (F.holds files.now)
        (names_of names.now)
        run.book run.frames.items run.replies.items run.after) }
    ensures count { IfOk result (λ run. length run.frames.items ≤ 65536) }
    ensures fault { IfErr result (IsFaultInOrder (F.holds files.now) (F.failing files.now)
        (names_of names.now) ⊥) }
{
    let (book, frames) = open_inputs(rt, alloc, files, names)?;
    let (replies, after) = open_answers(rt, alloc, files, names)?;
    Ok(AuditedRun {
        book,
        frames,
        replies,
        after,
    })
}

// The replies, and the book after them.
fn open_answers<R: Threads + Wait + Sync, F: Files>(
    rt: &R,
    alloc: Global,
    files: &F,
    names: &BatchNames,
) -> Result<(Vec<ReplyBody>, Book), JobFault>
    ensures held { IfOk result (λ answers. AreAnswers (F.is_known files.now) (F.holds files.now) (names_of names.now) answers.0.items answers.1) }
    ensures fault { IfErr result (IsAnswersFault (F.holds files.now) (F.failing files.now) (names_of names.now)) }
{
    let replies = open_replies(alloc, files, names.replies.as_str())?;
    let after = open_book(rt, alloc, files, names.new_book.as_str())?;
    Ok((replies, after))
}
