ghost use Rattle.std.specs.Prelude.{◌≡◌, length, map};
ghost use Rattle.std.specs.Iterator.{at_most};
ghost use Rattle.std.specs.Map.Iter.{TakesFirst, deref_pair};

use crate::row_key::RowKey;
use crate::row_val::RowVal;
use std::marker::Model;
use std::slice::Iter;

/// The rows of a book, in the order of their keys.
#[derive(Drop)]
pub struct BookRows<'a> {
    rest: Iter<'a, (&'a RowKey, &'a RowVal)>,
}

impl<'a> Model for BookRows<'a> {
    ghost use Rattle.std.specs.Prelude.{List, map};
    ghost use Rattle.std.specs.Map.Iter.{deref_pair};
    ghost use Rattle.std.specs.Slice.Iter.{iter_rest};
    ghost use Rattle.issuer_rows.specs.declared.row_key.RowKey.{RowKey};
    ghost use Rattle.issuer_rows.specs.declared.row_val.RowVal.{RowVal};

    ghost Value = { List (RowKey × RowVal) };

    ghost view = { λ r. map deref_pair (iter_rest r.rest) };
}

impl<'a> BookRows<'a> {
    // These rows.
    pub(crate) fn new(rows: &'a [(&'a RowKey, &'a RowVal)]) -> BookRows<'a>
        ensures { result ≡ map deref_pair rows.now }
    {
        BookRows { rest: rows.iter() }
    }
}

impl<'a> Iterator for BookRows<'a> {
    type Item = (&'a RowKey, &'a RowVal);

    ghost next_gives = { TakesFirst deref_pair };

    ghost remaining = { λ s. at_most (length s) };

    fn next(&mut self) -> Option<(&'a RowKey, &'a RowVal)> {
        let row = self.rest.next()?;
        Some(*row)
    }
}
