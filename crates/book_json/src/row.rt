ghost use Rattle.issuer_rows.specs.RowVal.{IsOfKind};

use issuer_rows::{RowKey, RowVal};

/// A row of a book's text.
#[derive(Clone, Copy)]
pub(crate) struct Row {
    pub(crate) key: RowKey,
    pub(crate) val: RowVal,
    ghost kind: { IsOfKind key val },
}
