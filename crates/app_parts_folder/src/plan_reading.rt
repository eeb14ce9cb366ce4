ghost use Rattle.std.specs.Prelude.{◌≡◌, ◌≢◌, IfNone, IfOk, IfSome};
ghost use Rattle.app_parts_folder.specs.PlanTexts.{IsPlan, Plan, plan_of, plan_text};

use crate::fields::{behind_letters, split_digest, split_number};
use crate::listed::read_listed;
use crate::plan_file::PlanFile;
use std::alloc::{AllocError, Global};

/// The plan of a file of these bytes. `None` where no plan has them. Memory can run out.
pub fn read_plan(alloc: Global, bytes: &[u8]) -> Result<Option<PlanFile>, AllocError>
    ensures some { IfOk result (λ read. IfSome read (λ plan. IsPlan (plan_of plan) × (bytes.now ≡ plan_text (plan_of plan)))) }
    ensures none { IfOk result (λ read. IfNone read ((plan : Plan) → IsPlan plan → bytes.now ≢ plan_text plan)) }
{
    let Some(counted) = behind_letters(bytes) else {
        return Ok(None);
    };
    let Some((count, numbered)) = split_number(counted) else {
        return Ok(None);
    };
    let Some((messages, behind)) = split_number(numbered) else {
        return Ok(None);
    };
    let Some((digest, listed)) = split_digest(behind) else {
        return Ok(None);
    };
    let mut rest = [0u8; 32];
    rest.copy_from_slice(digest);
    match read_listed(alloc, count, messages, listed)? {
        Some((digests, parts)) => {
            let plan = PlanFile {
                rest,
                digests,
                parts,
            };
            Ok(Some(plan))
        }
        None => Ok(None),
    }
}
