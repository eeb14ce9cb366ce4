ghost use Rattle.std.specs.Prelude.{◌≡◌, IfOk, IsTrue};
ghost use Rattle.stm_journal.specs.Finished.{IsFinished};
ghost use Rattle.stm_journal_text.specs.Answers.{IsNoFinish};

use std::alloc::AllocError;
use std::sync::Wait;
use stm_core_laws::{CoreFault, Seat};
use stm_journal::{CoreAnswer, Event, SharedCore, Traced};
use stm_memory::Version;

/// Validates a version, one read after another, and commits what can be. Returns whether no incarnation or epoch is left. A validation
/// that is refused is left: the version was aborted, or is committed.
pub(crate) fn validation<R: Wait, C: SharedCore>(
    rt: &R,
    core: &mut C,
    seat: Seat,
    version: Version,
) -> Result<bool, AllocError>
    ensures { IfOk result (λ exhausted. IsTrue exhausted → C.known_exhausted core.new) }
{
    let mut validating = core.begin_validation(seat, version);
    for _ in rt.forever() {
        match validating {
            Ok(false) => validating = core.validate_one(seat),
            Ok(true) => return end_validation(rt, core, seat),
            Err(CoreFault::OutOfMemory) => return Err(AllocError),
            Err(_) => return Ok(false),
        }
    }
    unreachable!()
}

// Closes the seat's validation, and commits what can be.
fn end_validation<R: Wait, C: SharedCore>(
    rt: &R,
    core: &mut C,
    seat: Seat,
) -> Result<bool, AllocError>
    ensures { IfOk result (λ exhausted. IsTrue exhausted → C.known_exhausted core.new) }
{
    match core.end_validation(seat) {
        Ok(_) => {}
        Err(CoreFault::OutOfMemory) => return Err(AllocError),
        Err(CoreFault::Exhausted) => return Ok(true),
        Err(_) => return Ok(false),
    }
    for _ in rt.forever() {
        match core.commit(seat) {
            Ok(true) => {}
            Ok(false) => return Ok(false),
            Err(_) => return Err(AllocError),
        }
    }
    unreachable!()
}

/// Asks the core. Returns whether no incarnation or epoch is left for it.
#[tactic(auto, using(crate::proofs::Finished::exhausted_finished))]
pub(crate) fn is_exhausted(
    traced: &mut Traced,
    seat: Seat,
    event: Event,
) -> Result<bool, AllocError>
    requires { IsNoFinish event }
    ensures { IfOk result (λ exhausted. IsTrue exhausted → IsFinished traced.new.core traced.new.entries) }
{
    match traced.step(seat, event) {
        CoreAnswer::Refused(CoreFault::OutOfMemory) => Err(AllocError),
        CoreAnswer::Refused(CoreFault::Exhausted) => Ok(true),
        _ => Ok(false),
    }
}
