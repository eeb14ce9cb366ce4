ghost use Rattle.std.specs.Prelude.{◌≡◌, ◌≢◌, ℕ, List, [], ◌∷◌, IfOk, IfErr, OnOk, OnErr};
ghost use Rattle.file_devices.specs.Holding.{AreAsTheyWere, IsAsItWas};
ghost use Rattle.app_jobs.specs.Faults.{IsPuttingFault, MayNotBePut};

use app_jobs::{JobFault, written};
use file_batch::put_all;
use file_devices::{Files, Written};
use std::alloc::{AllocError, Global};

/// Puts a page in the place of this name. It fails where that can't be made or written, or memory runs out; all files are then as they
/// were.
pub(crate) fn put_page<F: Files>(
    alloc: Global,
    files: &mut F,
    name: &str,
    page: &[u8],
) -> Result<(), JobFault>
    ensures put { OnOk result (F.is_known files.old → F.holds files.new name.now page.now) }
    ensures fault { IfErr result (IsPuttingFault (MayNotBePut (F.failing files.old) name.now)) }
    ensures kept { OnErr result (AreAsTheyWere (F.holds files.old) (F.holds files.new)) }
    ensures others { (other : List ℕ) → other ≢ name.now → IsAsItWas (F.holds files.old) (F.holds files.new) other }
{
    let output = write_page(files, name, page)?;
    let page = written(alloc, name, output)?;
    let alone = alone(alloc, page)?;
    Ok(files.put_in_place(alone)?)
}

// Writes a page to a file that can be put in the place of this name.
fn write_page<F: Files>(files: &F, name: &str, page: &[u8]) -> Result<F::Output, JobFault>
    ensures written { IfOk result (λ output. F.is_known files.now → F.Output.is_known output × (F.Output.written output ≡ page.now)) }
    ensures fault { IfErr result (IsPuttingFault (MayNotBePut (F.failing files.now) name.now)) }
{
    let mut output = files.create(name)?;
    match put_all(&mut output, page) {
        Ok(()) => Ok(output),
        Err(_) => Err(JobFault::Unwritable),
    }
}

// One file that was written.
fn alone<O: Drop>(alloc: Global, file: Written<O>) -> Result<Vec<Written<O>>, AllocError>
    ensures { IfOk result (λ files. files.items ≡ file ∷ []) }
{
    let mut files = Vec::new(alloc);
    files.push(file)?;
    Ok(files)
}
