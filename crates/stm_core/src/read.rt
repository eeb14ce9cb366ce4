use issuer_rows::RowKey;
use stm_core_laws::Logged;

/// A row that an incarnation asked for.
#[derive(Clone, Copy)]
pub(crate) struct Read {
    // The row.
    pub(crate) row: RowKey,
    // What was answered.
    pub(crate) logged: Logged,
    // The number at which the multi-version memory found the row's chain.
    pub(crate) number: usize,
}
