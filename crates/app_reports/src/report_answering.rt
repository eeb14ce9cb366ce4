ghost use Rattle.std.specs.Prelude.{◌≤◌, IfOk, IfErr, length};
ghost use Rattle.app_reports.specs.Report.{IsReport, IsReportFault};

use crate::report_fault::ReportFault;
use app_jobs::{open_batch, open_replies};
use day_totals::{DayTotals, day_of};
use file_devices::Files;
use std::alloc::Global;

/// How the day went that is the batch of the first file, with the replies in the second. The files are read alone. It fails with the
/// first fault of batch and replies; where there is another number of replies than of bodies; where a call on a file fails; or where
/// memory runs out.
pub fn report_of<F: Files>(
    alloc: Global,
    files: &F,
    batch: &str,
    replies: &str,
) -> Result<DayTotals, ReportFault>
    ensures report { IfOk result (IsReport (F.is_known files.now) (F.holds files.now) batch.now replies.now) }
    ensures fault { IfErr result (IsReportFault (F.holds files.now) (F.failing files.now) batch.now replies.now) }
{
    let frames = open_batch(alloc, files, batch)?;
    let answers = open_replies(alloc, files, replies)?;
    let (bodies, count) = (frames.as_slice().len(), answers.as_slice().len());
    if count != bodies {
        return Err(ReportFault::Replies(count));
    }
    let day = day_of(alloc, &frames, &answers)?;
    Ok(DayTotals::of(alloc, &day)?)
}
