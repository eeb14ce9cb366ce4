ghost use Rattle.std.specs.Prelude.{[], ◌∷◌, IfOk, IfErr};
ghost use Rattle.app_words.specs.Asked.{asked_of, names_of};
ghost use Rattle.app_commands.specs.Answered.{IsAnswerInUse, IsAuditedInUse, IsClaimFault, IsOneInUse};
ghost use Rattle.app_commands.specs.Claims.{answer_claims, audit_claims, claims_for};
ghost use Rattle.file_devices.specs.Claims.{AreOn, alone};

use crate::fault::Fault;
use app_jobs::JobFault;
use app_words::Command;
use file_devices::{BatchNames, Files};
use std::alloc::Global;

/// Claims the files that a command writes, so that no other run writes them meanwhile, or those that it audits, so that none changes
/// while it reads. They are claimed until the result is dropped.
pub(crate) fn claim_files<F: Files>(
    alloc: Global,
    files: &F,
    command: &Command,
) -> Result<Vec<F::Claim>, Fault>
    ensures claimed { IfOk result (λ claims. AreOn F.is_alone_on F.is_to_read (claims_for (asked_of command.now)) claims.items) }
    ensures in_use { IfErr result (IsClaimFault (IsOneInUse (F.failing files.now).in_use (asked_of command.now))) }
{
    match command {
        Command::Serial { names, .. }
        | Command::Run { names, .. }
        | Command::Blocks { names, .. } => { claim_answer(alloc, files, names) }
        Command::RunWithJournal { names, journal, .. } => {
            let mut claims = claim_answer(alloc, files, names)?;
            claims.push(claim(files, journal.as_str())?)?;
            Ok(claims)
        }
        Command::Audit { names, .. } | Command::AuditBlocks(names) => {
            claim_audited(alloc, files, names)
        }
        Command::Pack { batch, .. } => claim_made(alloc, files, batch.as_str()),
        Command::PackBlocks { blocks, .. } => claim_made(alloc, files, blocks.as_str()),
        _ => Ok(Vec::new(alloc)),
    }
}

// Claims the files of replies and of the new book, to write them.
fn claim_answer<F: Files>(
    alloc: Global,
    files: &F,
    names: &BatchNames,
) -> Result<Vec<F::Claim>, Fault>
    ensures claimed { IfOk result (λ claims. AreOn F.is_alone_on F.is_to_read (answer_claims (names_of names.now)) claims.items) }
    ensures in_use { IfErr result (IsClaimFault (IsAnswerInUse (F.failing files.now).in_use (names_of names.now))) }
{
    let mut claims = Vec::new(alloc);
    claims.push(claim(files, names.replies.as_str())?)?;
    claims.push(claim(files, names.new_book.as_str())?)?;
    Ok(claims)
}

// Claims the files of a book, of replies and of the new book, to read them.
fn claim_audited<F: Files>(
    alloc: Global,
    files: &F,
    names: &BatchNames,
) -> Result<Vec<F::Claim>, Fault>
    ensures claimed { IfOk result (λ claims. AreOn F.is_alone_on F.is_to_read (audit_claims (names_of names.now)) claims.items) }
    ensures in_use { IfErr result (IsClaimFault (IsAuditedInUse (F.failing files.now).in_use (names_of names.now))) }
{
    let mut claims = Vec::new(alloc);
    claims.push(claim_to_read(files, names.book.as_str())?)?;
    claims.push(claim_to_read(files, names.replies.as_str())?)?;
    claims.push(claim_to_read(files, names.new_book.as_str())?)?;
    Ok(claims)
}

// Claims the file that is made of texts, to write it.
fn claim_made<F: Files>(alloc: Global, files: &F, name: &str) -> Result<Vec<F::Claim>, Fault>
    ensures claimed { IfOk result (λ claims. AreOn F.is_alone_on F.is_to_read (alone name.now ∷ []) claims.items) }
    ensures in_use { IfErr result (IsClaimFault ((F.failing files.now).in_use name.now)) }
{
    let mut claims = Vec::new(alloc);
    claims.push(claim(files, name)?)?;
    Ok(claims)
}

// Claims a file, to write it.
fn claim<F: Files>(files: &F, name: &str) -> Result<F::Claim, Fault>
    ensures claimed { IfOk result (λ claim. F.is_alone_on claim name.now) }
    ensures in_use { IfErr result (IsClaimFault ((F.failing files.now).in_use name.now)) }
{
    match files.claim(name) {
        Ok(claim) => Ok(claim),
        Err(fault) => Err(Fault::Job(JobFault::from(fault))),
    }
}

// Claims a file, to read it.
fn claim_to_read<F: Files>(files: &F, name: &str) -> Result<F::Claim, Fault>
    ensures claimed { IfOk result (λ claim. F.is_to_read claim name.now) }
    ensures in_use { IfErr result (IsClaimFault ((F.failing files.now).in_use name.now)) }
{
    match files.claim_to_read(name) {
        Ok(claim) => Ok(claim),
        Err(fault) => Err(Fault::Job(JobFault::from(fault))),
    }
}
