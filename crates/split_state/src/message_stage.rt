/// Where a message stands.
#[derive(Clone, Copy, Debug, PartialEq, Eq)]
pub enum MessageStage {
    /// It is to be executed.
    Ready,
    /// A worker executes it.
    Running,
    /// It was executed.
    Executed,
    /// It is committed. It stays so.
    Committed,
}
