ghost use Rattle.std.specs.Prelude.{◌≡◌};
ghost use Rattle.stm_journal.specs.Turns.{then_holds};

use stm_core_laws::Got;
use stm_journal_text::CoreAnswer;
use stm_memory::Version;
use stm_scheduler::Task;

/// What a worker's seat holds between two of its turns (Block-STM).
#[derive(Clone, Copy, Debug, PartialEq, Eq)]
pub enum Holding {
    /// Nothing: it claims next.
    Nothing,
    /// A version that is to be executed.
    Execution(Version),
    /// A version that met an ESTIMATE of the message at this index: it is aborted next.
    Estimate(Version, u32),
    /// A version whose validation is to begin.
    Validation(Version),
    /// A validation that isn't at its end.
    Reads,
    /// A validation that is at its end.
    Verdict,
    /// A validation that is closed: what can be is committed.
    Commits,
    /// The end: all messages are committed.
    Ended,
}

/// What a seat that held this holds after this answer.
pub(crate) fn then_holds(holding: Holding, answer: &CoreAnswer) -> Holding
    ensures { result ≡ then_holds holding answer.now }
{
    match (holding, answer) {
        (Holding::Nothing, CoreAnswer::Claimed(Task::Execute(version))) => Holding::Execution(
            *version,
        ),
        (Holding::Nothing, CoreAnswer::Claimed(Task::Validate(version))) => {
            Holding::Validation(*version)
        }
        (Holding::Nothing, CoreAnswer::Claimed(Task::Done)) => Holding::Ended,
        (Holding::Execution(version), CoreAnswer::Got(Got::Row(_))) => Holding::Execution(version),
        (Holding::Execution(version), CoreAnswer::Got(Got::Estimate(on))) => {
            Holding::Estimate(version, *on)
        }
        (Holding::Execution(version), CoreAnswer::Finished(true)) => Holding::Validation(version),
        (Holding::Validation(_) | Holding::Reads, CoreAnswer::Validating(false)) => Holding::Reads,
        (Holding::Validation(_) | Holding::Reads, CoreAnswer::Validating(true)) => Holding::Verdict,
        (Holding::Verdict, CoreAnswer::Ended(_)) => Holding::Commits,
        (Holding::Commits, CoreAnswer::Committed(true)) => Holding::Commits,
        _ => Holding::Nothing,
    }
}
