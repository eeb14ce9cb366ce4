ghost use Rattle.std.specs.Prelude.{◌≡◌, ◌≤◌, IfErr, IfOk, Ok, length};
ghost use Rattle.file_batch.specs.Bodies.{bytes_of};
ghost use Rattle.file_batch.specs.Words.{IsBatchOf, batch_magic, bodies_of};
ghost use Rattle.app_parts_folder.specs.Parting.{IsCut, IsPlanned};
ghost use Rattle.app_parts_folder.specs.Planning.{IsBatchFaultOf};

use crate::batch_in_parts::BatchInParts;
use crate::most_parts::MostParts;
use app_jobs::JobFault;
use engine_parts::plan_parts;
use file_batch::read_batch;
use file_listing::bodies_of_batch;
use issuer_rows::{Book, Frame};
use std::alloc::Global;

/// Puts the batch of these bytes in at most so many parts, on this book.
pub fn plan_batch(
    alloc: Global,
    book: Book,
    batch: &[u8],
    most: MostParts,
) -> Result<BatchInParts, JobFault>
    ensures rows { IfOk result (λ own. own.rows ≡ book) }
    ensures cut { IfOk result (λ own. IsCut batch.now own.bodies own.frames) }
    ensures planned { IfOk result (λ own. IsPlanned own most) }
    ensures fault { IfErr result (IsBatchFaultOf batch.now) }
{
    let frames = frames_of(alloc, batch)?;
    let bodies = bodies_of(alloc, batch)?;
    let plan = plan_parts(alloc, &book, &frames, most.count())?;
    Ok(BatchInParts {
        book,
        bodies,
        frames,
        plan,
    })
}

// The messages of a batch.
fn frames_of(alloc: Global, batch: &[u8]) -> Result<Vec<Frame>, JobFault>
    ensures few { IfOk result (λ frames. length frames.items ≤ 65536) }
    ensures frames { IfOk result (λ frames. IsBatchOf batch.now frames.items) }
    ensures fault { IfErr result (IsBatchFaultOf batch.now) }
{
    let mut source = batch;
    match read_batch(alloc, &mut source) {
        Ok(frames) => Ok(frames),
        Err(fault) => Err(JobFault::Batch(fault)),
    }
}

// Its bodies. Of a batch whose messages were read it fails only where memory runs out.
fn bodies_of(alloc: Global, batch: &[u8]) -> Result<Vec<Vec<u8>>, JobFault>
    ensures bodies { IfOk result (λ bodies. bodies_of batch_magic batch.now ≡ Ok (bytes_of bodies.items)) }
    ensures fault { IfErr result (IsBatchFaultOf batch.now) }
{
    match bodies_of_batch(alloc, batch) {
        Ok(bodies) => Ok(bodies),
        Err(_) => Err(JobFault::OutOfMemory),
    }
}
