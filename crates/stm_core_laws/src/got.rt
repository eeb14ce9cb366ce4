use issuer_rows::RowVal;

/// What the core answers to a version that asks for a row.
#[derive(Clone, Copy)]
pub enum Got {
    /// The row's value; `None` is no such row.
    Row(Option<RowVal>),
    /// This message wrote the row, was aborted, and will likely write it again (Block-STM: ESTIMATE).
    Estimate(u32),
}
