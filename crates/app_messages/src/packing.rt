ghost use Rattle.std.specs.Prelude.{◌≡◌, ◌≢◌, ℕ, List, IfOk, IfErr, OnOk, OnErr, map, string_bytes};
ghost use Rattle.file_batch.specs.Bodies.{bytes_of};
ghost use Rattle.file_batch.specs.Words.{AreAsTheyWere, AreBodies, IsAsItWas, batch_text};
ghost use Rattle.app_jobs.specs.Faults.{IsWritingFaultOf};
ghost use Rattle.app_messages.specs.Packed.{ArePacked, IsPackingFault};

use crate::opening::open_texts;
use crate::placing::put_file;
use app_jobs::JobFault;
use file_batch::write_batch;
use file_devices::Files;
use std::alloc::Global;

/// Makes a batch file of the bodies of texts, one text's behind another's: one a line, in hexadecimal digits. Returns how many there are.
/// It fails with the first fault of the texts, in their order: one can't be read, or has a wrong line, or there are more than 65,536 bodies
/// with its own; where the file of the batch can't be made or written; or where memory runs out. All files are then as they were.
pub fn pack_batch<F: Files>(
    alloc: Global,
    files: &mut F,
    texts: &[String],
    batch: &str,
) -> Result<usize, JobFault>
    ensures packed { IfOk result (ArePacked (F.is_known files.old) (F.holds files.old) (F.holds files.new) (map string_bytes texts.now) batch.now) }
    ensures fault { IfErr result (IsPackingFault (F.holds files.old) (F.failing files.old) (map string_bytes texts.now) batch.now) }
    ensures kept { OnErr result (AreAsTheyWere (F.holds files.old) (F.holds files.new)) }
    // Other files stay as they were.
    ensures others { (other : List ℕ) → other ≢ batch.now → IsAsItWas (F.holds files.old) (F.holds files.new) other }
    ensures known { F.is_known files.old → F.is_known files.new }
{
    let bodies = open_texts(alloc, files, texts)?;
    put_batch(alloc, files, batch, &bodies)?;
    Ok(bodies.len())
}

// Puts a batch of these bodies in the place of this name.
fn put_batch<F: Files>(
    alloc: Global,
    files: &mut F,
    name: &str,
    bodies: &[Vec<u8>],
) -> Result<(), JobFault>
    requires { AreBodies (bytes_of bodies.now) }
    ensures put { OnOk result (F.is_known files.old → F.holds files.new name.now (batch_text (bytes_of bodies.now))) }
    ensures fault { IfErr result (IsWritingFaultOf (F.failing files.old) name.now) }
    ensures kept { OnErr result (AreAsTheyWere (F.holds files.old) (F.holds files.new)) }
    ensures others { (other : List ℕ) → other ≢ name.now → IsAsItWas (F.holds files.old) (F.holds files.new) other }
    ensures known { F.is_known files.old → F.is_known files.new }
{
    let output = write_bodies(alloc, files, name, bodies)?;
    put_file(alloc, files, name, output)
}

// Writes a batch of these bodies to a file that can be put in the place of this name.
fn write_bodies<F: Files>(
    alloc: Global,
    files: &F,
    name: &str,
    bodies: &[Vec<u8>],
) -> Result<F::Output, JobFault>
    requires { AreBodies (bytes_of bodies.now) }
    ensures written { IfOk result (λ output. F.is_known files.now → F.Output.is_known output × (F.Output.written output ≡ batch_text (bytes_of bodies.now))) }
    ensures fault { IfErr result (IsWritingFaultOf (F.failing files.now) name.now) }
{
    let mut output = files.create(name)?;
    match write_batch(alloc, bodies, &mut output) {
        Ok(()) => Ok(output),
        Err(fault) => Err(JobFault::Batch(fault)),
    }
}
