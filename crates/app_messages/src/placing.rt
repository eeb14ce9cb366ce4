ghost use Rattle.std.specs.Prelude.{◌≡◌, ◌≢◌, ℕ, List, IfErr, OnOk, OnErr};
ghost use Rattle.file_devices.specs.Holding.{AreAsTheyWere, IsAsItWas};
ghost use Rattle.app_jobs.specs.Faults.{IsPuttingFault};

use app_jobs::{JobFault, alone, written};
use file_devices::Files;
use std::alloc::Global;

/// Puts what was written in the place of this name. After a fault all files are as they were.
pub(crate) fn put_file<F: Files>(
    alloc: Global,
    files: &mut F,
    name: &str,
    output: F::Output,
) -> Result<(), JobFault>
    ensures put { OnOk result (F.is_known files.old → F.Output.is_known output → F.holds files.new name.now (F.Output.written output)) }
    ensures fault { IfErr result (IsPuttingFault ((F.failing files.old).refused name.now)) }
    ensures kept { OnErr result (AreAsTheyWere (F.holds files.old) (F.holds files.new)) }
    ensures others { (other : List ℕ) → other ≢ name.now → IsAsItWas (F.holds files.old) (F.holds files.new) other }
    ensures known { F.is_known files.old → F.is_known files.new }
{
    let file = written(alloc, name, output)?;
    let alone = alone(alloc, file)?;
    Ok(files.put_in_place(alone)?)
}
