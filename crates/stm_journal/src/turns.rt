ghost use Rattle.std.specs.Prelude.{◌≡◌, ◌≢◌, ◌<◌, IfOk, OnOk, length};
ghost use Rattle.std.specs.List.{AllByRecursion};
ghost use Rattle.stm_journal.specs.Turns.{HasTurned, IsOfMessage, Makes, needs_on};
ghost use Rattle.stm_journal_text.specs.Words.{IsLogged, IsNoFinish, log_rows};
ghost use Rattle.issuer_rows.specs.Agreement.{Agrees, keys_read};
ghost use Rattle.stm_core_laws.specs.State.{IsAt, slot};

use crate::deciding::{first_unlogged, present_version};
use crate::holding::{Holding, then_holds};
use crate::replaying::decide_on_log;
use crate::traced::Traced;
use issuer_rows::Frame;
use issuer_view::Execution;
use std::alloc::{AllocError, Global};
use stm_core_laws::{CoreFault, Seat};
use stm_journal_text::{CoreAnswer, Event};
use stm_memory::Version;

/// One turn of a seat that holds this. Returns what it holds then.
pub(crate) fn take_turn(
    alloc: Global,
    frames: &[Frame],
    traced: &mut Traced,
    seat: Seat,
    holding: Holding,
) -> Result<Holding, AllocError>
    requires frames { traced.old.core.state.frames ≡ frames.now }
    requires message { IsOfMessage (length frames.now) holding }
    ensures { IfOk result (λ next. HasTurned traced.old seat holding next traced.new) }
{
    match holding {
        Holding::Nothing => ask(traced, seat, Holding::Nothing, Event::Claim),
        Holding::Execution(version) => execute(alloc, frames, traced, seat, version),
        Holding::Estimate(version, on) => {
            let event = Event::Block(version, on);
            ask(traced, seat, Holding::Estimate(version, on), event)
        }
        Holding::Validation(version) => {
            let event = Event::BeginValidation(version);
            ask(traced, seat, Holding::Validation(version), event)
        }
        Holding::Reads => ask(traced, seat, Holding::Reads, Event::ValidateOne),
        Holding::Verdict => ask(traced, seat, Holding::Verdict, Event::EndValidation),
        Holding::Commits => ask(traced, seat, Holding::Commits, Event::Commit),
        Holding::Ended => Ok(Holding::Ended),
    }
}

// Decides the version's message on what was logged for it, and asks for the first row that wasn't; where all were, it hands the
// execution in.
fn execute(
    alloc: Global,
    frames: &[Frame],
    traced: &mut Traced,
    seat: Seat,
    version: Version,
) -> Result<Holding, AllocError>
    requires frames { traced.old.core.state.frames ≡ frames.now }
    requires message { version.index < length frames.now }
    ensures { IfOk result (λ next. HasTurned traced.old seat (Holding.Execution version) next traced.new) }
{
    let frame = &frames[version.index as usize];
    let present = present_version(traced.core(), version.index);
    let execution = decide_on_log(alloc, traced.core(), present, frame)?;
    match first_unlogged(traced.core(), version.index, execution.reads()) {
        Some(row) => {
            let event = Event::Read(version, row);
            ask(traced, seat, Holding::Execution(version), event)
        }
        None => finish(alloc, traced, seat, version, execution),
    }
}

// Asks the core for what a seat that holds this makes.
#[tactic(auto, using(crate::proofs::Turning::asked_turn))]
fn ask(
    traced: &mut Traced,
    seat: Seat,
    holding: Holding,
    event: Event,
) -> Result<Holding, AllocError>
    requires plain { IsNoFinish event }
    requires makes { Makes traced.old.core.state holding event }
    ensures { IfOk result (λ next. HasTurned traced.old seat holding next traced.new) }
{
    let answer = traced.step(seat, event);
    had_room(&answer)?;
    Ok(then_holds(holding, &answer))
}

// Hands in an execution of what was logged for the version.
#[tactic(auto, using(crate::proofs::Turning::finish_turn))]
fn finish(
    alloc: Global,
    traced: &mut Traced,
    seat: Seat,
    version: Version,
    execution: Execution,
) -> Result<Holding, AllocError>
    requires frame { IsAt traced.old.core.state.frames version.index execution.frame }
    requires keys { keys_read execution.reads ≡ needs_on (slot traced.old.core.state version.index).log execution.frame }
    requires agrees { Agrees execution.reads (log_rows (slot traced.old.core.state version.index).log) }
    requires logged { AllByRecursion (IsLogged (slot traced.old.core.state version.index).log) (keys_read execution.reads) }
    ensures { IfOk result (λ next. HasTurned traced.old seat (Holding.Execution version) next traced.new) }
{
    let answer = traced.finish(alloc, seat, version, execution);
    had_room(&answer)?;
    Ok(then_holds(Holding::Execution(version), &answer))
}

// An answer that isn't out of memory.
fn had_room(answer: &CoreAnswer) -> Result<(), AllocError>
    ensures { OnOk result (answer.now ≢ CoreAnswer.Refused CoreFault.OutOfMemory) }
{
    match answer {
        CoreAnswer::Refused(CoreFault::OutOfMemory) => Err(AllocError),
        _ => Ok(()),
    }
}
