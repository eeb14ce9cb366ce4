use stm_core_laws::{CoreFault, Got};
use stm_scheduler::Task;

/// What the core answers to an event (Block-STM).
#[derive(Clone, Copy)]
pub enum CoreAnswer {
    /// The task that was claimed.
    Claimed(Task),
    /// What the version sees of the row.
    Got(Got),
    /// The version is aborted.
    Blocked,
    /// The execution is kept. Whether the version is handed out to be validated.
    Finished(bool),
    /// A validation began, or went one read on. Whether it is at its end.
    Validating(bool),
    /// The validation is closed. Whether the version passed it.
    Ended(bool),
    /// Whether the next message was committed.
    Committed(bool),
    /// The core refuses, and is as it was.
    Refused(CoreFault),
}
