ghost use Rattle.std.specs.Prelude.{◌≡◌, ◌↔◌, ◌<◌, [], Some, None, length, slice_get, IsTrue, IfErr, IfSome, OnOk, OnErr};
ghost use Rattle.std.specs.FinMap as map;
ghost use Rattle.issuer_rows.specs.RowVal.{IsOfKind};
ghost use Rattle.issuer_view.specs.Recording.{answer_of, AsksOnce};
ghost use Rattle.issuer_view.specs.RowSets.{value_in, latest, logged, IsOnceEach};

use crate::inline_rows::{FEW, InlineRows, place_of};
use crate::row_source::RowSource;
use crate::spilled_rows::SpilledRows;
use crate::stop::Stop;
use issuer_rows::{RowKey, RowVal};
use std::alloc::Global;
use std::marker::Model;
use std::mem;

/// The rows that a decision read, each once, in the order of reading: the value, or that the row was absent
/// (Block-STM: read set).
#[derive(Drop)]
pub struct ReadSet {
    // The first rows, where one is found by comparing keys.
    few: InlineRows<Option<RowVal>>,
    // All behind them, where one is found by its key's hash.
    more: SpilledRows<Option<RowVal>>,
}

impl Model for ReadSet {
    ghost use Rattle.std.specs.Prelude.{◌++◌};
    ghost use Rattle.issuer_rows.specs.Agreement.{Reads};
    ghost use Rattle.issuer_view.specs.RowSets.{AreReadsOfKind, IsOnceEach, IsFilled};

    ghost Value = { Reads };

    ghost view = { λ set. set.few ++ set.more };

    ghost invariant = { λ set. AreReadsOfKind (set.few ++ set.more) × IsOnceEach (set.few ++ set.more) × IsFilled set.few set.more };
}

impl ReadSet {
    /// A set of no rows.
    pub fn new(alloc: Global) -> ReadSet
        ensures { result ≡ [] }
    {
        ReadSet {
            few: InlineRows::new(alloc),
            more: SpilledRows::new(),
        }
    }

    /// Takes all rows out, and keeps the memory.
    pub fn clear(&mut self)
        ensures { self.new ≡ [] }
    {
        self.few.clear();
        self.more.clear();
    }

    /// The set with its memory; one of no rows is left.
    pub fn take(&mut self) -> ReadSet
        ensures taken { result ≡ self.old }
        ensures left { self.new ≡ [] }
    {
        let alloc = self.few.allocator();
        mem::replace(self, ReadSet::new(alloc))
    }

    /// How many rows were read.
    pub fn len(&self) -> usize
        ensures len { result ≡ length self.now }
        ensures once { IsOnceEach self.now }
    {
        self.few.len() + self.more.len()
    }

    /// Whether no row was read.
    pub fn is_empty(&self) -> bool
        ensures { IsTrue result ↔ (self.now ≡ []) }
    {
        self.len() == 0
    }

    /// The row that was read at this place, and what it was.
    pub fn at(&self, index: usize) -> (RowKey, Option<RowVal>)
        requires { index < length self.now }
        ensures entry { slice_get self.now index ≡ Some result }
        ensures kind { IfSome result.1 (IsOfKind result.0) }
    {
        let (key, row) = self.row(index);
        (*key, *row)
    }

    /// The row that was read at this place, and what it was, where they stand.
    #[inline(always)]
    pub fn row(&self, index: usize) -> (&RowKey, &Option<RowVal>)
        requires { index < length self.now }
        ensures entry { slice_get self.now index ≡ Some (result.0.now, result.1.now) }
        ensures kind { IfSome result.1.now (IsOfKind result.0.now) }
    {
        if index < self.few.len() {
            let (key, row) = &self.few.as_slice()[index];
            return (key, row);
        }
        match self.more.row(index - self.few.len()) {
            Some(entry) => entry,
            None => unreachable!(),
        }
    }

    /// What the row was, if it was read.
    pub fn get(&self, key: &RowKey) -> Option<Option<RowVal>>
        ensures value { result ≡ value_in self.now key.now }
        ensures kind { IfSome result (λ row. IfSome row (IsOfKind key.now)) }
    {
        match place_of(self.few.as_slice(), key) {
            Some(place) => Some(self.few.as_slice()[place].1),
            None => self.more.get(key).copied(),
        }
    }

    // What the row that was read last was.
    #[inline(always)]
    pub(crate) fn latest(&self) -> &Option<RowVal>
        requires { 0 < length self.now }
        ensures { result.now ≡ latest self.now }
    {
        let behind = self.more.len();
        if behind == 0 {
            return self.few.latest();
        }
        match self.more.row(behind - 1) {
            Some((_, row)) => row,
            None => unreachable!(),
        }
    }

    // Makes room, asks the source for a row that was not read yet, and logs the answer.
    #[inline(always)]
    pub(crate) fn ask<S: RowSource>(&mut self, key: &RowKey, source: &mut S) -> Result<(), Stop>
        requires { value_in self.old key.now ≡ None }
        ensures asked { AsksOnce S.answers source.old key.now (answer_of result (latest self.new)) source.new }
        ensures ok { OnOk result (self.new ≡ logged self.old key.now (latest self.new)) }
        ensures some { OnOk result (0 < length self.new) }
        ensures err { OnErr result (self.new ≡ self.old) }
        ensures kind { OnOk result (IfSome (latest self.new) (IsOfKind key.now)) }
        ensures known { OnOk result (IfSome (S.book source.old) (λ rows. latest self.new ≡ map.get rows key.now)) }
        ensures stops { IfSome (S.book source.old) (λ _. IfErr result (λ stop. stop ≡ Stop.OutOfMemory)) }
        ensures same { S.book source.new ≡ S.book source.old }
    {
        if self.few.len() < FEW {
            self.few.ask(key, source)?;
            return Ok(());
        }
        let alloc = self.few.allocator();
        self.more.ask_more(alloc, key, source)?;
        Ok(())
    }
}
