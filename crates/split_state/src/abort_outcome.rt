/// What came of aborting an execution.
#[derive(Clone, Copy, Debug, PartialEq, Eq)]
pub enum AbortOutcome {
    /// The message is ready for its next incarnation.
    Ready,
    /// There was none to abort: the message is ready already, or committed. Nothing is changed.
    Kept,
    /// No incarnation is left. Nothing is changed.
    Exhausted,
}
