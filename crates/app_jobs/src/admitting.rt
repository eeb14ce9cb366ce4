ghost use Rattle.std.specs.Prelude.{◌≡◌, ◌<◌, IfErr, OnOk};
ghost use Rattle.file_batch.specs.Counting.{Admits};
ghost use Rattle.file_batch.specs.declared.strictness.Strictness.TheVariants.{Strict};

use crate::job_fault::JobFault;
use file_batch::{BodyCount, Strictness};

/// Whether a batch of so many bodies may be decided, or is refused for those that are no message.
pub fn admit(strictness: Strictness, count: BodyCount) -> Result<(), JobFault>
    ensures admitted { OnOk result (Admits strictness count) }
    ensures refused { IfErr result (λ fault. (strictness ≡ Strict) × (0 < count.unreadable) × (fault ≡ JobFault.Bodies count.unreadable)) }
{
    match strictness {
        Strictness::Strict if count.unreadable > 0 => Err(JobFault::Bodies(count.unreadable)),
        _ => Ok(()),
    }
}
