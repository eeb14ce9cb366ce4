use issuer_rows::RowKey;
use stm_memory::Version;

/// What is asked of the core (Block-STM).
#[derive(Clone, Copy, PartialEq, Eq)]
pub enum Event {
    /// The next task is claimed.
    Claim,
    /// A version reads a row.
    Read(Version, RowKey),
    /// A version waits for the message at this index.
    Block(Version, u32),
    /// A version's execution is handed in.
    Finish(Version),
    /// A validation of what a version read begins.
    BeginValidation(Version),
    /// One read is validated.
    ValidateOne,
    /// The validation ends.
    EndValidation,
    /// The next message is to commit.
    Commit,
}
