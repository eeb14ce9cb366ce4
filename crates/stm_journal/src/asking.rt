ghost use Rattle.std.specs.Prelude.{◌≡◌, true, Option, IfSome, OnOk};
ghost use Rattle.issuer_words.specs.Words.{IsOfKind, RowVal};
ghost use Rattle.stm_journal_text.specs.Answers.{Answers, FinishAnswers, IsNoFinish, IsAnswerOfKind, enters};
ghost use Rattle.stm_journal.specs.Answered.{was_read, validated, ended};

use issuer_rows::{RowKey, RowVal};
use issuer_view::Execution;
use std::alloc::Global;
use stm_core::{Core, Unread};
use stm_core_laws::{CoreFault, Seat};
use stm_journal_text::{CoreAnswer, Event};
use stm_memory::Version;
use stm_scheduler::Task;

/// What the core answers to an event that hands no execution in.
pub(crate) fn ask(core: &mut Core, seat: Seat, event: &Event) -> CoreAnswer
    requires { IsNoFinish event.now }
    ensures answer { Answers core.old seat event.now result core.new }
    ensures kind { IsAnswerOfKind event.now result }
{
    match event {
        Event::Claim => CoreAnswer::Claimed(claim(core, seat)),
        Event::Read(version, row) => read(core, seat, *version, row),
        Event::Block(version, on) => block(core, seat, *version, *on),
        Event::Finish(_) => unreachable!(),
        Event::BeginValidation(version) => validating(begin_validation(core, seat, *version)),
        Event::ValidateOne => validating(validate_one(core, seat)),
        Event::EndValidation => ended(end_validation(core, seat)),
        Event::Commit => CoreAnswer::Committed(commit(core, seat)),
    }
}

/// The task that the core gives to a claim.
pub(crate) fn claim(core: &mut Core, seat: Seat) -> Task
    ensures { Answers core.old seat Event.Claim (CoreAnswer.Claimed result) core.new }
{
    core.next_task()
}

// What the core answers to a read.
fn read(core: &mut Core, seat: Seat, version: Version, row: &RowKey) -> CoreAnswer
    ensures answer { Answers core.old seat (Event.Read version row.now) result core.new }
    ensures kind { IsAnswerOfKind (Event.Read version row.now) result }
{
    match core.read(version, row) {
        Ok(got) => CoreAnswer::Got(got),
        Err(fault) => CoreAnswer::Refused(fault),
    }
}

/// What the core answers to a read, written to a place of the caller's.
#[tactic(auto, using(crate::proofs::Asked::read_asked))]
pub(crate) fn read_into(
    core: &mut Core,
    seat: Seat,
    version: Version,
    row: &RowKey,
    value: &mut Option<RowVal>,
) -> Result<(), Unread>
    ensures answer { Answers core.old seat (Event.Read version row.now) (was_read result value.new) core.new }
    ensures kind { OnOk result (IfSome value.new (IsOfKind row.now)) }
{
    core.read_into(version, row, value)
}

/// What the core answers to a version that is aborted.
pub(crate) fn block(core: &mut Core, seat: Seat, version: Version, on: u32) -> CoreAnswer
    ensures { Answers core.old seat (Event.Block version on) result core.new }
{
    match core.block(version, on) {
        Ok(()) => CoreAnswer::Blocked,
        Err(fault) => CoreAnswer::Refused(fault),
    }
}

/// What the core answers to a validation that begins. It is always entered.
#[tactic(auto, using(crate::proofs::Asked::begin_asked, crate::proofs::Asked::begin_entered))]
pub(crate) fn begin_validation(
    core: &mut Core,
    seat: Seat,
    version: Version,
) -> Result<bool, CoreFault>
    ensures answer { Answers core.old seat (Event.BeginValidation version) (validated result) core.new }
    ensures entered { enters (validated result) ≡ true }
{
    core.begin_validation(seat, version)
}

/// What the core answers to a validation that goes on. It is always entered.
#[tactic(auto, using(crate::proofs::Asked::validation_asked, crate::proofs::Asked::validation_entered))]
pub(crate) fn validate_one(core: &mut Core, seat: Seat) -> Result<bool, CoreFault>
    ensures answer { Answers core.old seat Event.ValidateOne (validated result) core.new }
    ensures entered { enters (validated result) ≡ true }
{
    core.validate_one(seat)
}

/// What the core answers to the end of a validation. It is always entered.
#[tactic(auto, using(crate::proofs::Asked::end_asked, crate::proofs::Asked::end_entered))]
pub(crate) fn end_validation(core: &mut Core, seat: Seat) -> Result<bool, CoreFault>
    ensures answer { Answers core.old seat Event.EndValidation (ended result) core.new }
    ensures entered { enters (ended result) ≡ true }
{
    core.end_validation(seat)
}

/// Whether the core commits the next message.
pub(crate) fn commit(core: &mut Core, seat: Seat) -> bool
    ensures { Answers core.old seat Event.Commit (CoreAnswer.Committed result) core.new }
{
    core.commit()
}

// The answer of a validation that began or went on.
fn validating(is_ended: Result<bool, CoreFault>) -> CoreAnswer
    ensures { result ≡ validated is_ended }
{
    match is_ended {
        Ok(is_ended) => CoreAnswer::Validating(is_ended),
        Err(fault) => CoreAnswer::Refused(fault),
    }
}

// The answer of a validation that was closed.
fn ended(has_passed: Result<bool, CoreFault>) -> CoreAnswer
    ensures { result ≡ ended has_passed }
{
    match has_passed {
        Ok(has_passed) => CoreAnswer::Ended(has_passed),
        Err(fault) => CoreAnswer::Refused(fault),
    }
}

/// What the core answers to an execution that is handed in.
pub(crate) fn hand_in(
    core: &mut Core,
    alloc: Global,
    seat: Seat,
    version: Version,
    execution: &Execution,
) -> CoreAnswer
    ensures answer { Answers core.old seat (Event.Finish version) result core.new }
    ensures finish { FinishAnswers core.old version execution.now result core.new }
{
    match core.finish_copy(alloc, version, execution) {
        Ok(is_handed_out) => CoreAnswer::Finished(is_handed_out),
        Err(fault) => CoreAnswer::Refused(fault),
    }
}

/// Whether an event that is answered so is entered.
pub(crate) fn enters(answer: &CoreAnswer) -> bool
    ensures { result ≡ enters answer.now }
{
    !matches!(
        answer,
        CoreAnswer::Claimed(Task::Idle)
            | CoreAnswer::Refused(CoreFault::OutOfMemory | CoreFault::OtherReads)
    )
}

/// Whether a claim that is given this task is entered.
pub(crate) fn enters_claim(task: &Task) -> bool
    ensures { result ≡ enters (CoreAnswer.Claimed task.now) }
{
    !matches!(task, Task::Idle)
}

/// Whether a read that is answered so is entered.
pub(crate) fn enters_read(answer: &Result<(), Unread>) -> bool
    ensures { (value : Option RowVal) → result ≡ enters (was_read answer.now value) }
{
    !matches!(
        answer,
        Err(Unread::Refused(CoreFault::OutOfMemory | CoreFault::OtherReads))
    )
}
