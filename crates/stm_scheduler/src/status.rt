/// What is done with a message (Block-STM).
#[derive(Clone, Copy, Debug, PartialEq, Eq)]
pub enum Status {
    /// It can be handed out.
    Ready,
    /// It was handed out, and has neither finished nor been aborted.
    Running,
    /// Its execution finished.
    Executed,
    /// It is suspended (Block-STM): it can be handed out once this message is executed.
    Waiting(u32),
}
