ghost use Rattle.std.specs.Prelude.{◌≢◌, OnOk};

use crate::report_fault::ReportFault;
use file_devices::Files;

/// Checks that the page would not be written over the batch or the replies.
pub(crate) fn check_page<F: Files>(
    files: &F,
    batch: &str,
    replies: &str,
    page: &str,
) -> Result<(), ReportFault>
    ensures batch { OnOk result (F.is_known files.now → page.now ≢ batch.now) }
    ensures replies { OnOk result (F.is_known files.now → page.now ≢ replies.now) }
{
    if files.is_one_file(page, batch)? {
        return Err(ReportFault::OneFile("BATCH"));
    }
    if files.is_one_file(page, replies)? {
        return Err(ReportFault::OneFile("REPLIES"));
    }
    Ok(())
}
