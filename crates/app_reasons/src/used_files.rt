//! What is told behind a fault of a command, by what it does with its files.

ghost use Rattle.std.specs.Prelude.{◌≡◌, Err, IfSome};
ghost use Rattle.app_reasons.specs.Tells.{TellsOfWritten};
ghost use Rattle.app_reasons.specs.Uses.{TellsOfOneUsed, TellsOfUsed};
ghost use Rattle.app_reasons.specs.Words.{IsLineOf};
ghost use Rattle.app_reasons.specs.declared.reason.Reason.TheVariants.{InUse};
ghost use Rattle.file_devices.specs.declared.claim_fault.ClaimFault.TheVariants as claim_fault;

use crate::explaining::line_of;
use crate::one_file::{reason_of_book, reason_of_file};
use crate::reason::Reason;
use crate::told::Told;
use crate::used_file::{FileUse, UsedFile};
use app_jobs::JobFault;
use file_devices::{ClaimFault, Files};
use file_laws::BatchFault;
use std::alloc::Global;

/// What is told of the first of these files that has the fault, in one line, where one has it. The files are read, claimed or made once
/// more, and left as they are.
pub fn words_of_used<F: Files>(
    alloc: Global,
    files: &F,
    used: &[UsedFile<'_>],
    fault: &JobFault,
) -> Option<Vec<u8>>
    ensures { IfSome result (λ line. TellsOfUsed (F.holds files.now) (F.failing files.now) used.now fault.now line.items) }
{
    match used.split_first() {
        None => None,
        Some((file, rest)) => match reason_of_used(alloc, files, file, fault) {
            Some(reason) => line_of(
                alloc,
                &Told {
                    name: file.name,
                    reason,
                },
            ),
            None => words_of_used(alloc, files, rest, fault),
        },
    }
}

// Why a file of a command is not read, claimed or written.
fn reason_of_used<F: Files>(
    alloc: Global,
    files: &F,
    file: &UsedFile<'_>,
    fault: &JobFault,
) -> Option<Reason>
    ensures { IfSome result (TellsOfOneUsed (F.holds files.now) (F.failing files.now) file.now fault.now) }
{
    match file.used {
        FileUse::Book => reason_of_book(alloc, files, file.name, fault),
        FileUse::Bodies(kind) => reason_of_file(alloc, files, file.name, kind, fault),
        FileUse::Shared => match fault {
            JobFault::InUse => reason_of_claim(&files.claim_to_read(file.name)),
            _ => None,
        },
        FileUse::Written => reason_of_written(files, file.name, fault),
        FileUse::Log => match fault {
            JobFault::Batch(BatchFault::Blocks) => Some(Reason::TooManyMessages),
            _ => None,
        },
    }
}

/// What is told of a file behind a fault of claiming or writing it, in one line, where something is.
pub fn words_of_written<F: Files>(
    alloc: Global,
    files: &F,
    name: &str,
    fault: &JobFault,
) -> Option<Vec<u8>>
    ensures { IfSome result (λ line. IsLineOf name.now (TellsOfWritten (F.failing files.now) fault.now) line.items) }
{
    match reason_of_written(files, name, fault) {
        Some(reason) => line_of(alloc, &Told { name, reason }),
        None => None,
    }
}

// Why a file is not written: none can be made in its place, or another run has claimed it.
fn reason_of_written<F: Files>(files: &F, name: &str, fault: &JobFault) -> Option<Reason>
    ensures { IfSome result (TellsOfWritten (F.failing files.now) fault.now name.now) }
{
    match fault {
        JobFault::Unwritable => match files.why_not_made(name) {
            Some(reason) => Some(Reason::Host(reason)),
            None => None,
        },
        JobFault::InUse => reason_of_claim(&files.claim(name)),
        _ => None,
    }
}

// Why a file is not claimed.
fn reason_of_claim<C: Drop>(claim: &Result<C, ClaimFault>) -> Option<Reason>
    ensures { IfSome result (λ reason. (claim.now ≡ Err claim_fault.InUse) × (reason ≡ InUse)) }
{
    match claim {
        Err(ClaimFault::InUse) => Some(Reason::InUse),
        _ => None,
    }
}
