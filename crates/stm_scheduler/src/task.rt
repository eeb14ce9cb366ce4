use stm_memory::Version;

/// What a worker is to do next (Block-STM: task).
#[derive(Clone, Copy, Debug, PartialEq, Eq)]
pub enum Task {
    /// Execute this version.
    Execute(Version),
    /// Validate what this version read.
    Validate(Version),
    /// Nothing for now.
    Idle,
    /// Nothing any more: all messages are committed.
    Done,
}
