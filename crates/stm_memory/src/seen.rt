use crate::version::Version;
use issuer_rows::RowVal;

/// What a message sees of a row (Block-STM): what the nearest message before it wrote.
#[derive(Clone, Copy)]
pub enum Seen {
    /// No message before it has an entry: the opening book.
    Base,
    /// What this execution wrote.
    Value(Version, RowVal),
    /// An ESTIMATE of this message: it wrote the row, was aborted, and will likely write it again.
    Estimate(u32),
}
