use issuer_rows::RowVal;
use stm_memory::Version;

/// What a version was answered for a row (Block-STM: an entry of the read set).
#[derive(Clone, Copy)]
pub struct Logged {
    /// The execution that wrote the value; `None` is the opening book.
    pub origin: Option<Version>,
    /// The value; `None` is no such row.
    pub value: Option<RowVal>,
}
