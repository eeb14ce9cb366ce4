//! Files of a folder that are opened.

ghost use Rattle.std.specs.Prelude.{◌≡◌, ◌≤◌, ℕ, List, IfOk, IfErr, OnOk, Some, length, slice_get};
ghost use Rattle.sha2.specs.Sha256.{sha256};
ghost use Rattle.app_parts_folder.specs.PlanTexts.{plan_of};
ghost use Rattle.app_parts_folder.specs.Names.{part_name};
ghost use Rattle.app_parts_folder.specs.Opening.{IsOpenPlan, IsPartFileFault, IsPlanFault, IsPlannedFileFault};
ghost use Rattle.app_parts_folder.specs.Texts.{IsHeld};

use crate::names::{part_name, plan_name};
use crate::part_fault::PartFault;
use crate::part_file::PartFile;
use crate::parts_fault::PartsFault;
use crate::plan_file::PlanFile;
use crate::plan_reading::read_plan;
use crate::reading::{digest_of, read_text};
use app_jobs::JobFault;
use file_devices::Files;
use std::alloc::Global;

/// The plan of a folder.
#[derive(Drop)]
pub struct OpenPlan {
    /// What it says.
    pub plan: PlanFile,
    /// The digest of its bytes.
    pub digest: [u8; 32],
}

/// Opens the plan of a folder.
pub fn open_plan<F: Files>(alloc: Global, files: &F, folder: &str) -> Result<OpenPlan, PartsFault>
    ensures plan { IfOk result (IsOpenPlan (F.is_known files.now) (F.holds files.now) folder.now) }
    ensures fault { IfErr result (IsPlanFault (F.holds files.now) (F.failing files.now) folder.now) }
{
    let name = plan_name(alloc, folder)?;
    let bytes = read_text(alloc, files, name.as_str())?;
    let digest = digest_of(&bytes);
    match read_plan(alloc, &bytes)? {
        Some(plan) => Ok(OpenPlan { plan, digest }),
        None => Err(PartsFault::NoPlan),
    }
}

/// Opens a file of a part.
pub fn open_part_file<F: Files>(
    alloc: Global,
    files: &F,
    folder: &str,
    part: u32,
    file: PartFile,
) -> Result<Vec<u8>, PartsFault>
    ensures held { IfOk result (λ bytes. IsHeld (F.is_known files.now) (F.holds files.now) (part_name folder.now part file) bytes.items) }
    ensures fault { IfErr result (IsPartFileFault (F.holds files.now) (F.failing files.now) (part_name folder.now part file) part) }
{
    let name = part_name(alloc, folder, part, file)?;
    match read_text(alloc, files, name.as_str()) {
        Ok(bytes) => Ok(bytes),
        Err(JobFault::Unreadable) => Err(PartsFault::Part(part, PartFault::Unreadable)),
        Err(_) => Err(PartsFault::Job(JobFault::OutOfMemory)),
    }
}

/// Opens a file of a part that is to have this digest. Of one that has another this fault is told.
pub fn open_planned<F: Files>(
    alloc: Global,
    files: &F,
    folder: &str,
    part: u32,
    file: PartFile,
    digest: &[u8; 32],
    other: PartFault,
) -> Result<Vec<u8>, PartsFault>
    ensures held { IfOk result (λ bytes. IsHeld (F.is_known files.now) (F.holds files.now) (part_name folder.now part file) bytes.items) }
    ensures digest { IfOk result (λ bytes. sha256 bytes.items ≡ digest.now) }
    ensures fault { IfErr result (IsPlannedFileFault (F.holds files.now) (F.failing files.now) (part_name folder.now part file) digest.now part other) }
{
    let bytes = open_part_file(alloc, files, folder, part, file)?;
    let own = digest_of(&bytes);
    if own == *digest {
        Ok(bytes)
    } else {
        Err(PartsFault::Part(part, other))
    }
}
