ghost use Rattle.std.specs.Prelude.{◌∷◌, [], IfOk, IfErr};
ghost use Rattle.app_parts.specs.Faults.{IsClaimFault, MayBeInUse, names_of};
ghost use Rattle.file_devices.specs.Claims.{AreOn, alone};

use crate::archive_names::ArchiveNames;
use app_jobs::JobFault;
use file_devices::Files;
use std::alloc::Global;

/// Claims the files of the new book and of the old one, so that no other run writes them. They are claimed until the result is dropped.
pub(crate) fn claim_books<F: Files>(
    alloc: Global,
    files: &F,
    names: &ArchiveNames<'_>,
) -> Result<Vec<F::Claim>, JobFault>
    ensures claimed { IfOk result (λ claims. AreOn F.is_alone_on F.is_to_read (alone names.now.new_book.now ∷ alone names.now.old.now ∷ []) claims.items) }
    ensures in_use { IfErr result (IsClaimFault (MayBeInUse (F.failing files.now) (names_of names.now))) }
{
    let mut claims = Vec::new(alloc);
    claims.push(claim(files, names.new_book)?)?;
    claims.push(claim(files, names.old)?)?;
    Ok(claims)
}

// Claims a file, to write it.
fn claim<F: Files>(files: &F, name: &str) -> Result<F::Claim, JobFault>
    ensures claimed { IfOk result (λ claim. F.is_alone_on claim name.now) }
    ensures in_use { IfErr result (IsClaimFault ((F.failing files.now).in_use name.now)) }
{
    match files.claim(name) {
        Ok(claim) => Ok(claim),
        Err(fault) => Err(JobFault::from(fault)),
    }
}
