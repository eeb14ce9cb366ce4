//! Words of scripts: numbers, versions, seats, tasks, and what a core says.

use stm_core_laws::{CoreFault, Seat};
use stm_memory::Version;
use stm_scheduler::{Status, Task};

/// A number.
pub(crate) fn number(word: &str) -> Option<u32> {
    u32::from_str_radix(word, 10).ok()
}

/// A message's index and its incarnation, as `1.0`.
pub(crate) fn version(word: &str) -> Option<Version> {
    let (index, incarnation) = word.split_once('.')?;
    Some(Version {
        index: number(index)?,
        incarnation: number(incarnation)?,
    })
}

/// A seat's number.
pub(crate) fn seat(word: &str) -> Option<Seat> {
    Seat::new(number(word)?)
}

/// A task, as `execute 1.0`, `validate 1.0` or `done`.
pub(crate) fn task(text: &str) -> Option<Task> {
    match text.split_once(' ') {
        Some(("execute", word)) => Some(Task::Execute(version(word)?)),
        Some(("validate", word)) => Some(Task::Validate(version(word)?)),
        Some(_) => None,
        None => (text == "done").then_some(Task::Done),
    }
}

/// Whether the word is this number, or `-` where there is none.
pub(crate) fn is_number(word: &str, value: Option<u64>) -> bool {
    match value {
        Some(value) => u64::from_str_radix(word, 10).ok() == Some(value),
        None => word == "-",
    }
}

/// Whether the word says where a message stands.
pub(crate) fn is_status(word: &str, status: Status) -> bool {
    match status {
        Status::Ready => word == "ready",
        Status::Running => word == "running",
        Status::Executed => word == "executed",
        Status::Waiting(1) => word == "waits-for-1",
        Status::Waiting(_) => false,
    }
}

/// What a core answers yes or no, or why it refuses.
pub(crate) fn said(answer: Result<bool, CoreFault>) -> &'static str {
    match answer {
        Ok(true) => "yes",
        Ok(false) => "no",
        Err(CoreFault::NotRunning) => "not running",
        Err(CoreFault::OtherReads) => "other reads",
        Err(CoreFault::Outdated) => "outdated",
        Err(CoreFault::OutOfMemory) => "out of memory",
        Err(CoreFault::Exhausted) => "exhausted",
    }
}
