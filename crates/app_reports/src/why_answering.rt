ghost use Rattle.std.specs.Prelude.{IfOk, IfErr};
ghost use Rattle.app_reports.specs.Why.{IsWhy, IsWhyFault};

use crate::why_fault::WhyFault;
use app_jobs::{open_batch, open_book};
use file_devices::Files;
use issuer_reasons::{Explanation, explain_at};
use std::alloc::Global;
use std::sync::Wait;
use std::thread::Threads;

/// Why the message at this place of a batch was answered so, on the book of the first file, with the batch in the second. The files are
/// read alone. It fails with the first fault of book and batch; where the batch has no such message; where a call on a file fails; or
/// where memory runs out.
pub fn why_of<R: Threads + Wait + Sync, F: Files>(
    rt: &R,
    alloc: Global,
    files: &F,
    book: &str,
    batch: &str,
    index: usize,
) -> Result<Explanation, WhyFault>
    ensures why { IfOk result (IsWhy (F.is_known files.now) (F.holds files.now) book.now batch.now index) }
    ensures fault { IfErr result (IsWhyFault (F.holds files.now) (F.failing files.now) book.now batch.now index) }
{
    let opening = open_book(rt, alloc, files, book)?;
    let frames = open_batch(alloc, files, batch)?;
    let count = frames.as_slice().len();
    if count <= index {
        return Err(WhyFault::Index(count));
    }
    Ok(explain_at(alloc, opening, &frames, index)?)
}
