ghost use Rattle.std.specs.Prelude.{◌≡◌, ◌<◌, if◌then◌else◌, None, replicate, IfOk};
ghost use Rattle.stm_core_laws.specs.Words.{failed_one, is_at_end, passed_one, seats};

use std::alloc::{AllocError, Global};
use stm_core_laws::Validation;

/// A place for the validation of each seat, and no validation.
pub(crate) fn no_validations(alloc: Global) -> Result<Vec<Option<Validation>>, AllocError>
    ensures { IfOk result (λ validations. validations.items ≡ replicate seats None) }
{
    let mut validations = Vec::with_capacity(alloc, 64)?;
    for _ in 0..64u32 {
        validations.push_reserved(None);
    }
    Ok(validations)
}

/// Whether the validation has gone over all reads, or has failed.
pub(crate) fn is_at_end(validation: &Validation) -> bool
    ensures { result ≡ is_at_end validation.now }
{
    validation.failed || validation.place == validation.reads
}

/// The validation after its next read was found as it was logged, or otherwise.
pub(crate) fn after_read(validation: Validation, stays: bool) -> Validation
    requires { validation.place < validation.reads }
    ensures { result ≡ (if stays then passed_one validation else failed_one validation) }
{
    if stays {
        Validation {
            version: validation.version,
            began: validation.began,
            place: validation.place + 1,
            reads: validation.reads,
            failed: validation.failed,
        }
    } else {
        Validation {
            version: validation.version,
            began: validation.began,
            place: validation.place,
            reads: validation.reads,
            failed: true,
        }
    }
}
