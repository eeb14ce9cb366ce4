ghost use Rattle.std.specs.Prelude.{◌≡◌, ◌≤◌, IfOk, OnOk, IsTrue, length};
ghost use Rattle.stm_journal.specs.Finished.{IsFinished};

use crate::traced_rows::TracedRows;
use crate::validating::{is_exhausted, validation};
use issuer_rows::{Book, Frame};
use issuer_rules::Shipped;
use issuer_view::{Execution, Stop, execute};
use std::alloc::{AllocError, Global};
use std::sync::Wait;
use stm_core_laws::{CoreFault, Limits, Seat};
use stm_journal::{CoreAnswer, Event, Traced};
use stm_memory::Version;
use stm_scheduler::Task;

/// A new core of this book and these bodies, on which the caller alone takes a worker's turns, until all is committed or no
/// incarnation or epoch is left. The messages are decided by the shipped decision.
pub(crate) fn played_alone<R: Wait>(
    rt: &R,
    alloc: Global,
    book: &Book,
    frames: &[Frame],
    limits: Limits,
) -> Result<Traced, AllocError>
    requires { length frames.now ≤ 65536 }
    ensures { IfOk result (λ traced. IsFinished traced.core traced.entries) }
{
    let mut traced = Traced::with_limits(alloc, book, frames, limits)?;
    match take_turns(rt, alloc, frames, &mut traced) {
        Ok(()) => Ok(traced),
        Err(fault) => Err(fault),
    }
}

// A worker's turns on this core, until all is committed or no incarnation or epoch is left.
fn take_turns<R: Wait>(
    rt: &R,
    alloc: Global,
    frames: &[Frame],
    traced: &mut Traced,
) -> Result<(), AllocError>
    ensures { OnOk result (IsFinished traced.new.core traced.new.entries) }
{
    for _ in rt.forever() {
        match take_turn(rt, alloc, frames, traced) {
            Ok(true) => return Ok(()),
            Ok(false) => {}
            Err(fault) => return Err(fault),
        }
    }
    unreachable!()
}

// One task, claimed and done. Returns whether it is the last one.
fn take_turn<R: Wait>(
    rt: &R,
    alloc: Global,
    frames: &[Frame],
    traced: &mut Traced,
) -> Result<bool, AllocError>
    ensures { IfOk result (λ last. IsTrue last → IsFinished traced.new.core traced.new.entries) }
{
    match traced.step(Seat::first(), Event::Claim) {
        CoreAnswer::Claimed(Task::Done) => Ok(true),
        CoreAnswer::Claimed(Task::Execute(version)) => decide_alone(
            rt, alloc, frames, traced, version,
        ),
        CoreAnswer::Claimed(Task::Validate(version)) => validation(
            rt,
            traced,
            Seat::first(),
            version,
        ),
        CoreAnswer::Refused(CoreFault::OutOfMemory) => Err(AllocError),
        _ => Ok(false),
    }
}

// Decides a version and hands its execution in. A version that met an ESTIMATE is aborted.
fn decide_alone<R: Wait>(
    rt: &R,
    alloc: Global,
    frames: &[Frame],
    traced: &mut Traced,
    version: Version,
) -> Result<bool, AllocError>
    ensures { IfOk result (λ last. IsTrue last → IsFinished traced.new.core traced.new.entries) }
{
    let Some(frame) = frames.get(version.index as usize) else {
        return Ok(false);
    };
    let rows = TracedRows::new(traced, Seat::first(), version);
    match execute(alloc, frame, rows, &Shipped) {
        Ok(execution) => finish_alone(rt, alloc, traced, version, execution),
        Err(Stop::Blocked(on)) => is_exhausted(traced, Seat::first(), Event::Block(version, on)),
        Err(Stop::OutOfMemory) => Err(AllocError),
        Err(Stop::Lost) => Ok(false),
    }
}

// Hands an execution in, and validates the version where it is handed out for that.
#[tactic(auto, using(crate::proofs::Finished::exhausted_finish))]
fn finish_alone<R: Wait>(
    rt: &R,
    alloc: Global,
    traced: &mut Traced,
    version: Version,
    execution: Execution,
) -> Result<bool, AllocError>
    ensures { IfOk result (λ last. IsTrue last → IsFinished traced.new.core traced.new.entries) }
{
    let named = version;
    match traced.finish(alloc, Seat::first(), version, execution) {
        CoreAnswer::Finished(true) => validation(rt, traced, Seat::first(), named),
        CoreAnswer::Refused(CoreFault::OutOfMemory) => Err(AllocError),
        CoreAnswer::Refused(CoreFault::Exhausted) => Ok(true),
        _ => Ok(false),
    }
}
