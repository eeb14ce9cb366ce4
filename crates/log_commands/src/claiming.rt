ghost use Rattle.std.specs.Prelude.{◌⊎◌, ◌∷◌, [], IfOk, IfErr};
ghost use Rattle.file_devices.specs.Claims.{AreOn, alone, to_read};
ghost use Rattle.log_commands.specs.Faults.{IsClaimFault};

use crate::command_fault::CommandFault;
use crate::log_names::LogNames;
use file_devices::Files;
use std::alloc::Global;

/// Claims the files of replies and of the new book, so that no other run writes them. They are claimed until the result is dropped.
pub(crate) fn claim_answer<F: Files>(
    alloc: Global,
    files: &F,
    names: &LogNames<'_>,
) -> Result<Vec<F::Claim>, CommandFault>
    ensures claimed { IfOk result (λ claims. AreOn F.is_alone_on F.is_to_read
        (alone names.now.replies.now ∷ alone names.now.new_book.now ∷ []) claims.items) }
    ensures in_use { IfErr result (IsClaimFault ((F.failing files.now).in_use names.now.replies.now ⊎ (F.failing files.now).in_use names.now.new_book.now)) }
{
    let mut claims = Vec::new(alloc);
    claims.push(claim(files, names.replies)?)?;
    claims.push(claim(files, names.new_book)?)?;
    Ok(claims)
}

// Claims a file, to write it.
fn claim<F: Files>(files: &F, name: &str) -> Result<F::Claim, CommandFault>
    ensures claimed { IfOk result (λ claim. F.is_alone_on claim name.now) }
    ensures in_use { IfErr result (IsClaimFault ((F.failing files.now).in_use name.now)) }
{
    match files.claim(name) {
        Ok(claim) => Ok(claim),
        Err(fault) => Err(CommandFault::from(fault)),
    }
}

/// Claims the files of a book, of replies and of the new book, to read them while no run writes them.
pub(crate) fn claim_audited<F: Files>(
    alloc: Global,
    files: &F,
    names: &LogNames<'_>,
) -> Result<Vec<F::Claim>, CommandFault>
    ensures claimed { IfOk result (λ claims. AreOn F.is_alone_on F.is_to_read
        (to_read names.now.book.now ∷ to_read names.now.replies.now ∷ to_read names.now.new_book.now ∷ []) claims.items) }
    ensures in_use { IfErr result (IsClaimFault ((F.failing files.now).in_use names.now.book.now
        ⊎ ((F.failing files.now).in_use names.now.replies.now ⊎ (F.failing files.now).in_use names.now.new_book.now))) }
{
    let mut claims = Vec::new(alloc);
    claims.push(claim_to_read(files, names.book)?)?;
    claims.push(claim_to_read(files, names.replies)?)?;
    claims.push(claim_to_read(files, names.new_book)?)?;
    Ok(claims)
}

// Claims a file, to read it.
fn claim_to_read<F: Files>(files: &F, name: &str) -> Result<F::Claim, CommandFault>
    ensures claimed { IfOk result (λ claim. F.is_to_read claim name.now) }
    ensures in_use { IfErr result (IsClaimFault ((F.failing files.now).in_use name.now)) }
{
    match files.claim_to_read(name) {
        Ok(claim) => Ok(claim),
        Err(fault) => Err(CommandFault::from(fault)),
    }
}
