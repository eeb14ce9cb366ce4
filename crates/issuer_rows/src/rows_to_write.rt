ghost use Rattle.std.specs.Prelude.{◌≡◌, ◌<◌, List, Some, length, slice_get};
ghost use Rattle.issuer_rows.specs.RowVal.{IsOfKind};
ghost use Rattle.issuer_rows.specs.declared.row_key.RowKey.{RowKey};
ghost use Rattle.issuer_rows.specs.declared.row_val.RowVal.{RowVal};

use crate::row_key::RowKey;
use crate::row_val::RowVal;

/// Rows that are to be written into a book, each with its key, in their order.
pub trait RowsToWrite {
    // The rows, each behind its key.
    ghost rows: { Self → List (RowKey × RowVal) };

    /// How many rows there are.
    fn len(&self) -> usize
        ensures { result ≡ length (rows self.now) };

    /// The row at this place and its value, where they stand.
    fn row(&self, index: usize) -> (&RowKey, &RowVal)
        requires { index < length (rows self.now) }
        ensures entry { slice_get (rows self.now) index ≡ Some (result.0.now, result.1.now) }
        ensures kind { IsOfKind result.0.now result.1.now };
}
