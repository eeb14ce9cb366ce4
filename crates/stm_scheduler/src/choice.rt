ghost use Rattle.std.specs.Prelude.{◌≡◌, ◌≤◌, ◌<◌, ◌↔◌, length, IsTrue};
ghost use Rattle.stm_scheduler.specs.Board.{Board, IsReady, IsOpen};
ghost use Rattle.stm_scheduler.specs.Cursors.{Chooses, present};

use crate::message_progress::MessageProgress;
use crate::status::Status;
use crate::task::Task;
use stm_memory::Version;

/// What is handed out next, and where the cursors stand then.
#[derive(Clone, Copy)]
pub(crate) struct Choice {
    // What is handed out.
    pub(crate) task: Task,
    // The execution cursor.
    pub(crate) execution: u32,
    // The validation cursor.
    pub(crate) validation: u32,
}

// The message's present version.
fn present_version(marks: &[MessageProgress], index: u32) -> Version
    requires { index < length marks.now }
    ensures { (b : Board) → b.marks ≡ marks.now → result ≡ present b index }
{
    Version {
        index,
        incarnation: marks[index as usize].incarnation,
    }
}

// Whether the message is to be validated.
fn is_open(marks: &[MessageProgress], committed: u32, index: u32) -> bool
    requires { index < length marks.now }
    ensures { (b : Board) → b.marks ≡ marks.now → b.committed ≡ committed → IsTrue result ↔ IsOpen b (present b index) }
{
    marks[index as usize].status == Status::Executed && committed <= index
}

// Whether the message is to be executed.
fn is_ready(marks: &[MessageProgress], index: u32) -> bool
    requires { index < length marks.now }
    ensures { (b : Board) → b.marks ≡ marks.now → IsTrue result ↔ IsReady b index }
{
    marks[index as usize].status == Status::Ready
}

/// The next task by the cursors.
pub(crate) fn choose(
    marks: &[MessageProgress],
    committed: u32,
    execution: u32,
    validation: u32,
) -> Choice
    requires few { length marks.now ≤ 65536 }
    requires execution { execution ≤ length marks.now }
    requires validation { validation ≤ length marks.now }
    ensures chooses { (b : Board) → b.marks ≡ marks.now → b.committed ≡ committed → Chooses b execution validation result.task result.execution result.validation }
    ensures execution { result.execution ≤ length marks.now }
    ensures validation { result.validation ≤ length marks.now }
{
    let mut next = execution;
    let mut validated = validation;
    while validated < next || (next as usize) < marks.len() {
        if validated < next {
            if is_open(marks, committed, validated) {
                return Choice {
                    task: Task::Validate(present_version(marks, validated)),
                    execution: next,
                    validation: validated + 1,
                };
            }
            validated += 1;
        } else {
            if is_ready(marks, next) {
                return Choice {
                    task: Task::Execute(present_version(marks, next)),
                    execution: next + 1,
                    validation: validated,
                };
            }
            next += 1;
        }
    }
    Choice {
        task: Task::Idle,
        execution: next,
        validation: validated,
    }
}
