ghost use Rattle.std.specs.Prelude.{◌≡◌, ◌≤◌, IfOk, IfErr};
ghost use Rattle.issuer_reasons.specs.declared.explanation.Explanation.{Explanation};
ghost use Rattle.app_jobs.specs.Faults.{IsBatchFault};
ghost use Rattle.app_reports.specs.Why.{AreLines, explanation_text, IsSaid, IsWhy, IsWhyFault};

use crate::sought::Sought;
use crate::why_answering::why_of;
use crate::why_asking::WhyAsked;
use crate::why_fault::WhyFault;
use crate::why_help::{USAGE, WHY_HELP};
use crate::why_listing::lines_of_sought;
use app_jobs::{JobFault, open_batch};
use app_reasons::{FileKind, tell_of_book_or_batch, tell_of_file};
use app_words::{Form, put, status_of};
use file_devices::Files;
use issuer_reasons::Explanation;
use reason_json::why_line;
use reason_text::lines_of;
use std::alloc::{AllocError, Global};
use std::io::Write;
use std::sync::Wait;
use std::thread::Threads;

/// Does what is asked of `why` over these files, which are read alone, and returns the exit status: 0 done, 1 fault, 2 words that are no
/// command, or no such message. What is asked for goes to `out`, a fault to `err`; what that doesn't take is dropped.
pub fn answer_why<R: Threads + Wait + Sync, F: Files, O: Write, E: Write>(
    rt: &R,
    alloc: Global,
    files: &F,
    asked: &WhyAsked<'_>,
    out: &mut O,
    err: &mut E,
) -> u8
    ensures status { result ≤ 2 }
    ensures said { result ≡ 0 → IsSaid (F.is_known files.now) (F.holds files.now) asked.now (O.contents out.old) (O.contents out.new) }
{
    let said = match asked {
        WhyAsked::Message(book, batch, index, form) => {
            match text_of_files(rt, alloc, files, book, batch, *index, *form) {
                Ok(text) => put(out, &text),
                Err(fault) => {
                    tell(alloc, files, book, batch, &fault, err);
                    return fault.status();
                }
            }
        }
        WhyAsked::Messages(batch, sought, form) => {
            match lines_of_batch(alloc, files, batch, sought, *form) {
                Ok(text) => put(out, &text),
                Err(fault) => {
                    tell_of_file(alloc, files, batch, FileKind::Batch, &fault, err);
                    return 1;
                }
            }
        }
        WhyAsked::Help => put(out, WHY_HELP.as_bytes()),
        WhyAsked::Wrong => {
            let _ = err.write_all(USAGE.as_bytes());
            return 2;
        }
    };
    status_of(said, err)
}

// An explanation in this form.
fn text_of(
    alloc: Global,
    form: Form,
    index: usize,
    explanation: &Explanation,
) -> Result<Vec<u8>, AllocError>
    ensures { IfOk result (λ text. text.items ≡ explanation_text form index explanation.now) }
{
    match form {
        Form::Lines => lines_of(alloc, index, explanation),
        Form::Json(cards) => why_line(alloc, cards, index, explanation),
    }
}

// What is said of the message at this place of a batch.
fn text_of_files<R: Threads + Wait + Sync, F: Files>(
    rt: &R,
    alloc: Global,
    files: &F,
    book: &str,
    batch: &str,
    index: usize,
    form: Form,
) -> Result<Vec<u8>, WhyFault>
    ensures text { IfOk result (λ text. (e : Explanation) × IsWhy (F.is_known files.now) (F.holds files.now) book.now batch.now index e
        × (text.items ≡ explanation_text form index e)) }
    ensures fault { IfErr result (IsWhyFault (F.holds files.now) (F.failing files.now) book.now batch.now index) }
{
    let explanation = why_of(rt, alloc, files, book, batch, index)?;
    Ok(text_of(alloc, form, index, &explanation)?)
}

// The lines of the messages that are sought in this batch.
fn lines_of_batch<F: Files>(
    alloc: Global,
    files: &F,
    batch: &str,
    sought: &Sought<'_>,
    form: Form,
) -> Result<Vec<u8>, JobFault>
    ensures lines { IfOk result (λ text. AreLines (F.is_known files.now) (F.holds files.now) batch.now sought.now form text.items) }
    ensures fault { IfErr result (IsBatchFault (F.holds files.now) (F.failing files.now) batch.now) }
{
    let frames = open_batch(alloc, files, batch)?;
    match lines_of_sought(alloc, &frames, sought, form) {
        Ok(text) => Ok(text),
        Err(AllocError) => Err(JobFault::OutOfMemory),
    }
}

// Tells the fault, and behind it what is known of the file, or how many messages the batch has.
fn tell<F: Files, E: Write>(
    alloc: Global,
    files: &F,
    book: &str,
    batch: &str,
    fault: &WhyFault,
    err: &mut E,
) {
    match fault {
        WhyFault::Job(fault) => tell_of_book_or_batch(alloc, files, book, batch, fault, err),
        WhyFault::Index(count) => {
            let _ = write!(
                err,
                "{fault}\n{batch}: it has {count} messages, numbered from 0\n"
            );
        }
    }
}
