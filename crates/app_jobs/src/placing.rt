ghost use Rattle.std.specs.Prelude.{◌≡◌, [], ◌∷◌, IfOk, string_bytes};
ghost use Rattle.file_devices.specs.BatchNames.{names_of};
ghost use Rattle.app_jobs.specs.Deciding.{PutsAnswer};
ghost use Rattle.app_jobs.specs.Faults.{MayBeRefused};

use crate::job_fault::JobFault;
use file_devices::{BatchNames, Files, Written};
use std::alloc::{AllocError, Global};

/// Puts replies and the book after them in place, replies first. After a fault all files are as they were.
pub(crate) fn put_answer<F: Files>(
    alloc: Global,
    files: &mut F,
    names: &BatchNames,
    replies: F::Output,
    new_book: F::Output,
) -> Result<(), JobFault>
    ensures puts { PutsAnswer F.is_known F.holds (MayBeRefused (F.failing files.old) (names_of names.now)) files.old files.new (names_of names.now)
        (F.Output.is_known replies → F.holds files.new (string_bytes names.now.replies) (F.Output.written replies))
        (F.Output.is_known new_book → F.holds files.new (string_bytes names.now.new_book) (F.Output.written new_book)) result }
{
    let replies = written(alloc, names.replies.as_str(), replies)?;
    let new_book = written(alloc, names.new_book.as_str(), new_book)?;
    let answer = both(alloc, replies, new_book)?;
    Ok(files.put_in_place(answer)?)
}

/// A list of one file that was written, to be put in place alone.
pub fn alone<O: Drop>(alloc: Global, file: Written<O>) -> Result<Vec<Written<O>>, AllocError>
    ensures { IfOk result (λ files. files.items ≡ file ∷ []) }
{
    let mut files = Vec::new(alloc);
    files.push(file)?;
    Ok(files)
}

/// A list of two files that were written, in this order, to be put in place together.
pub fn both<O: Drop>(
    alloc: Global,
    first: Written<O>,
    second: Written<O>,
) -> Result<Vec<Written<O>>, AllocError>
    ensures { IfOk result (λ files. files.items ≡ first ∷ second ∷ []) }
{
    let mut files = Vec::new(alloc);
    files.push(first)?;
    files.push(second)?;
    Ok(files)
}

/// What was written, to be put in the place of this name.
pub fn written<O: Drop>(alloc: Global, name: &str, output: O) -> Result<Written<O>, AllocError>
    ensures name { IfOk result (λ file. string_bytes file.name ≡ name.now) }
    ensures output { IfOk result (λ file. file.output ≡ output) }
{
    Ok(Written {
        name: String::from_str(alloc, name)?,
        output,
    })
}
