/// What a ledger says of an execution that is to be committed.
#[derive(Debug, Clone, Copy, PartialEq, Eq)]
pub enum CommitOutcome {
    /// It was that of the next message, and is committed.
    Committed,
    /// It is that of another message, or a row that it read is another one now. Nothing is changed.
    Stale,
}
