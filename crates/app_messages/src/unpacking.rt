ghost use Rattle.std.specs.Prelude.{IfOk, IfErr};
ghost use Rattle.app_messages.specs.Unpacked.{IsUnpacked, IsUnpackFault};

use app_jobs::JobFault;
use file_devices::{Files, read_file};
use file_laws::BatchFault;
use file_listing::lines_of_batch;
use std::alloc::Global;

/// The bodies of the batch of this name, one a line, in hexadecimal. The file is read alone. It fails with the first fault of the batch;
/// where a call on the file fails; or where memory runs out.
pub fn unpack<F: Files>(alloc: Global, files: &F, batch: &str) -> Result<Vec<u8>, JobFault>
    ensures lines { IfOk result (λ text. IsUnpacked (F.is_known files.now) (F.holds files.now) batch.now text.items) }
    ensures fault { IfErr result (IsUnpackFault (F.holds files.now) (F.failing files.now) batch.now) }
{
    let bytes = read_file(alloc, files, batch)?;
    match lines_of_batch(alloc, &bytes) {
        Ok(text) => Ok(text),
        Err(BatchFault::OutOfMemory) => Err(JobFault::OutOfMemory),
        Err(fault) => Err(JobFault::Batch(fault)),
    }
}
