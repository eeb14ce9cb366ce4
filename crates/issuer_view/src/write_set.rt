ghost use Rattle.std.specs.Prelude.{◌≡◌, ◌<◌, ◌↔◌, [], Some, length, slice_get, IsTrue, IfSome, OnOk, OnErr};
ghost use Rattle.issuer_rows.specs.RowVal.{IsOfKind};
ghost use Rattle.issuer_view.specs.RowSets.{value_in, put, IsOnceEach};

use crate::inline_rows::{FEW, InlineRows, place_of};
use crate::spilled_rows::SpilledRows;
use issuer_rows::{RowKey, RowVal, RowsToWrite};
use std::alloc::{AllocError, Global};
use std::marker::Model;
use std::mem;

/// The rows that a decision writes, each once, in the order of first touch (Block-STM: write set).
#[derive(Drop)]
pub struct WriteSet {
    // The first rows, where one is found by comparing keys.
    few: InlineRows<RowVal>,
    // All behind them, where one is found by its key's hash.
    more: SpilledRows<RowVal>,
}

impl Model for WriteSet {
    ghost use Rattle.std.specs.Prelude.{◌++◌};
    ghost use Rattle.issuer_rows.specs.Plan.{Writes};
    ghost use Rattle.issuer_view.specs.RowSets.{AreWritesOfKind, IsOnceEach, IsFilled};

    ghost Value = { Writes };

    ghost view = { λ set. set.few ++ set.more };

    ghost invariant = { λ set. AreWritesOfKind (set.few ++ set.more) × IsOnceEach (set.few ++ set.more) × IsFilled set.few set.more };
}

impl WriteSet {
    /// A set of no rows.
    pub fn new(alloc: Global) -> WriteSet
        ensures { result ≡ [] }
    {
        WriteSet {
            few: InlineRows::new(alloc),
            more: SpilledRows::new(),
        }
    }

    /// Takes all rows out, and keeps the memory.
    pub fn clear(&mut self)
        ensures { self.new ≡ [] }
    {
        self.few.clear();
        self.more.clear();
    }

    /// The set with its memory; one of no rows is left.
    pub fn take(&mut self) -> WriteSet
        ensures taken { result ≡ self.old }
        ensures left { self.new ≡ [] }
    {
        let alloc = self.few.allocator();
        mem::replace(self, WriteSet::new(alloc))
    }

    /// How many rows are written.
    pub fn len(&self) -> usize
        ensures len { result ≡ length self.now }
        ensures once { IsOnceEach self.now }
    {
        self.few.len() + self.more.len()
    }

    /// Whether no row is written.
    pub fn is_empty(&self) -> bool
        ensures { IsTrue result ↔ (self.now ≡ []) }
    {
        self.len() == 0
    }

    /// The row that is written at this place, and its value.
    pub fn at(&self, index: usize) -> (RowKey, RowVal)
        requires { index < length self.now }
        ensures entry { slice_get self.now index ≡ Some result }
        ensures kind { IsOfKind result.0 result.1 }
    {
        let (key, row) = self.row(index);
        (*key, *row)
    }

    /// The row that is written at this place, and its value, where they stand.
    #[inline(always)]
    pub fn row(&self, index: usize) -> (&RowKey, &RowVal)
        requires { index < length self.now }
        ensures entry { slice_get self.now index ≡ Some (result.0.now, result.1.now) }
        ensures kind { IsOfKind result.0.now result.1.now }
    {
        if index < self.few.len() {
            let (key, row) = &self.few.as_slice()[index];
            return (key, row);
        }
        match self.more.row(index - self.few.len()) {
            Some(entry) => entry,
            None => unreachable!(),
        }
    }

    /// The row's value, if it is written.
    pub fn get(&self, key: &RowKey) -> Option<RowVal>
        ensures value { result ≡ value_in self.now key.now }
        ensures kind { IfSome result (IsOfKind key.now) }
    {
        match place_of(self.few.as_slice(), key) {
            Some(place) => Some(self.few.as_slice()[place].1),
            None => self.more.get(key).copied(),
        }
    }

    /// Writes a row; one that is written already keeps its place. It fails only where memory runs out.
    pub fn put(&mut self, key: RowKey, row: RowVal) -> Result<(), AllocError>
        requires { IsOfKind key row }
        ensures ok { OnOk result (self.new ≡ put self.old key row) }
        ensures err { OnErr result (self.new ≡ self.old) }
        ensures absent { OnErr result (value_in self.old key ≡ None) }
    {
        self.put_copy(&key, &row)
    }

    /// Writes a copy of a row; one that is written already keeps its place. It fails only where memory runs out.
    pub fn put_copy(&mut self, key: &RowKey, row: &RowVal) -> Result<(), AllocError>
        requires { IsOfKind key.now row.now }
        ensures ok { OnOk result (self.new ≡ put self.old key.now row.now) }
        ensures err { OnErr result (self.new ≡ self.old) }
        ensures absent { OnErr result (value_in self.old key.now ≡ None) }
    {
        match place_of(self.few.as_slice(), key) {
            Some(place) => {
                self.few.set_copy(place, key, row);
                Ok(())
            }
            None if self.few.len() < FEW => {
                self.few.push_copy(key, row)?;
                Ok(())
            }
            None => {
                self.more.insert_copy(self.few.allocator(), key, row)?;
                Ok(())
            }
        }
    }
    /// Writes a copy of a row that is not written yet, so it isn't looked for. It fails only where memory runs out.
    pub fn put_new(&mut self, key: &RowKey, row: &RowVal) -> Result<(), AllocError>
        requires kind { IsOfKind key.now row.now }
        requires absent { value_in self.old key.now ≡ None }
        ensures ok { OnOk result (self.new ≡ put self.old key.now row.now) }
        ensures err { OnErr result (self.new ≡ self.old) }
    {
        if self.few.len() < FEW {
            self.few.push_copy(key, row)?;
            return Ok(());
        }
        self.more.insert_copy(self.few.allocator(), key, row)?;
        Ok(())
    }
}

impl RowsToWrite for WriteSet {
    ghost rows = { λ set. set };

    #[inline(always)]
    fn len(&self) -> usize {
        WriteSet::len(self)
    }

    #[inline(always)]
    fn row(&self, index: usize) -> (&RowKey, &RowVal) {
        WriteSet::row(self, index)
    }
}
