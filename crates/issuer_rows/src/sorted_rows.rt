ghost use Rattle.std.specs.Prelude.{◌≡◌, IfOk, length, map};
ghost use Rattle.std.specs.FinMap as map;
ghost use Rattle.std.specs.List.{IsDistinct};
ghost use Rattle.std.specs.Map.{keys_of};
ghost use Rattle.std.specs.Map.Iter.{deref_pair};
ghost use Rattle.issuer_rows.specs.RowKey.{key_cmp, key_eq};

use crate::book_rows::BookRows;
use crate::ranked_row::RankedRow;
use crate::row_key::RowKey;
use crate::row_val::RowVal;
use indexmap::map::Iter;
use rayon::prelude::par_sort;
use std::alloc::{AllocError, Global};
use std::marker::Model;
use std::thread::Threads;

/// The rows of a book, sorted by their keys.
#[derive(Drop)]
pub struct SortedRows<'a> {
    rows: Vec<(&'a RowKey, &'a RowVal)>,
}

impl<'a> Model for SortedRows<'a> {
    ghost use Rattle.std.specs.Prelude.{List, map};
    ghost use Rattle.std.specs.Map.Iter.{deref_pair};
    ghost use Rattle.issuer_rows.specs.declared.row_key.RowKey.{RowKey};
    ghost use Rattle.issuer_rows.specs.declared.row_val.RowVal.{RowVal};

    ghost Value = { List (RowKey × RowVal) };

    ghost view = { λ s. map deref_pair s.rows.items };
}

impl<'a> SortedRows<'a> {
    // Sorts rows, each of another key.
    pub(crate) fn new(
        alloc: Global,
        rows: Iter<'a, RowKey, RowVal>,
    ) -> Result<SortedRows<'a>, AllocError>
        requires { IsDistinct key_eq (keys_of rows) }
        ensures { IfOk result (λ sorted. sorted ≡ map.entries (map.from_entries {R = key_cmp} rows.entry)) }
    {
        let mut ranked = ranked_rows(alloc, rows)?;
        ranked.sort()?;
        SortedRows::of(alloc, &ranked)
    }

    // The same by several threads.
    pub(crate) fn by_threads<R: Threads + Sync>(
        rt: &R,
        alloc: Global,
        rows: Iter<'a, RowKey, RowVal>,
    ) -> Result<SortedRows<'a>, AllocError>
        requires { IsDistinct key_eq (keys_of rows) }
        ensures { IfOk result (λ sorted. sorted ≡ map.entries (map.from_entries {R = key_cmp} rows.entry)) }
    {
        let mut ranked = ranked_rows(alloc, rows)?;
        par_sort(rt, alloc, &mut ranked)?;
        SortedRows::of(alloc, &ranked)
    }

    // These rows without their ranks.
    fn of(alloc: Global, ranked: &[RankedRow<'a>]) -> Result<SortedRows<'a>, AllocError>
        ensures { IfOk result (λ sorted. sorted ≡ ranked.now) }
    {
        Ok(SortedRows {
            rows: ranked.iter().map(|ranked| ranked.row()).collect(alloc)?,
        })
    }

    /// How many rows there are.
    pub fn len(&self) -> usize
        ensures { result ≡ length self.now }
    {
        self.rows.len()
    }

    /// The rows, where they stand.
    pub fn as_slice(&self) -> &[(&'a RowKey, &'a RowVal)]
        ensures { map deref_pair result.now ≡ self.now }
    {
        &self.rows
    }

    /// The rows, from the first on.
    pub fn iter(&self) -> BookRows<'_>
        ensures { result ≡ self.now }
    {
        BookRows::new(&self.rows)
    }
}

// The rows with their ranks.
fn ranked_rows<'a>(
    alloc: Global,
    rows: Iter<'a, RowKey, RowVal>,
) -> Result<Vec<RankedRow<'a>>, AllocError>
    ensures { IfOk result (λ ranked. ranked.items ≡ rows.entry) }
{
    rows.map(|row| RankedRow::new(row)).collect(alloc)
}
