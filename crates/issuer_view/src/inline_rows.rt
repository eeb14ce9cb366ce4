ghost use Rattle.std.specs.Prelude.{◌≡◌, ◌+◌, ◌<◌, ◌≤◌, ◌^◌, ◌++◌, ◌∷◌, [], Some, None, length, take, slice_get, set, IfErr, IfSome, IfNone, OnOk, OnErr};
ghost use Rattle.std.specs.FinMap as map;
ghost use Rattle.issuer_rows.specs.RowVal.{IsOfKind};
ghost use Rattle.issuer_view.specs.Recording.{answer_of, AsksOnce};
ghost use Rattle.issuer_view.specs.RowSets.{value_in, latest, logged};

use crate::row_source::RowSource;
use crate::stop::Stop;
use issuer_rows::{RowKey, RowVal};
use std::alloc::{AllocError, Global};
use std::marker::Model;

/// How many rows of a set stand in its list.
pub(crate) const FEW: usize = 8;

/// The first rows of a set, in a list, and behind them places whose memory is used again. A row is written where it is to
/// stand: one that is passed by value is copied at every step.
#[derive(Drop)]
pub(crate) struct InlineRows<V> {
    rows: Vec<(RowKey, V)>,
    used: usize,
}

impl<V> Model for InlineRows<V> {
    ghost use Rattle.std.specs.Prelude.{◌≤◌, List, length, take};
    ghost use Rattle.issuer_rows.specs.declared.row_key.RowKey.{RowKey};

    ghost Value = { List (RowKey × V) };

    ghost view = { λ few. take few.used few.rows.items };

    ghost invariant = { λ few. few.used ≤ length few.rows.items };
}

impl<V> InlineRows<V> {
    /// No rows.
    pub(crate) fn new(alloc: Global) -> InlineRows<V>
        ensures { result ≡ [] }
    {
        InlineRows {
            rows: Vec::new(alloc),
            used: 0,
        }
    }

    /// Takes all rows out, and keeps the memory.
    pub(crate) fn clear(&mut self)
        ensures { self.new ≡ [] }
    {
        self.used = 0;
    }

    /// How many rows there are.
    pub(crate) fn len(&self) -> usize
        ensures len { result ≡ length self.now }
        ensures small { length self.now < 2 ^ 63 }
    {
        self.as_slice().len()
    }

    /// What its memory is asked of.
    pub(crate) fn allocator(&self) -> Global {
        *self.rows.allocator()
    }

    /// The rows.
    pub(crate) fn as_slice(&self) -> &[(RowKey, V)]
        ensures { result.now ≡ self.now }
    {
        &self.rows[..self.used]
    }
}

impl InlineRows<RowVal> {
    /// Writes a copy of a row over the one at this place.
    pub(crate) fn set_copy(&mut self, place: usize, key: &RowKey, row: &RowVal)
        requires { place < length self.old }
        ensures { self.new ≡ set self.old place (key.now, row.now) }
    {
        write_over(&mut self.rows, place, key, row);
    }

    /// Appends a copy of a row.
    pub(crate) fn push_copy(&mut self, key: &RowKey, row: &RowVal) -> Result<(), AllocError>
        ensures ok { OnOk result (self.new ≡ self.old ++ (key.now, row.now) ∷ []) }
        ensures err { OnErr result (self.new ≡ self.old) }
    {
        if self.used < self.rows.len() {
            write_over(&mut self.rows, self.used, key, row);
        } else {
            push_row(&mut self.rows, *key, row)?;
        }
        self.used += 1;
        Ok(())
    }
}

impl InlineRows<Option<RowVal>> {
    /// What the last row was.
    #[inline(always)]
    pub(crate) fn latest(&self) -> &Option<RowVal>
        requires { 0 < length self.now }
        ensures { result.now ≡ latest self.now }
    {
        let rows = self.as_slice();
        &rows[rows.len() - 1].1
    }

    /// Makes room, asks the source for a row, and appends the answer.
    #[inline(always)]
    pub(crate) fn ask<S: RowSource>(&mut self, key: &RowKey, source: &mut S) -> Result<(), Stop>
        ensures asked { AsksOnce S.answers source.old key.now (answer_of result (latest self.new)) source.new }
        ensures ok { OnOk result (self.new ≡ logged self.old key.now (latest self.new)) }
        ensures err { OnErr result (self.new ≡ self.old) }
        ensures kind { OnOk result (IfSome (latest self.new) (IsOfKind key.now)) }
        ensures known { OnOk result (IfSome (S.book source.old) (λ rows. latest self.new ≡ map.get rows key.now)) }
        ensures stops { IfSome (S.book source.old) (λ _. IfErr result (λ stop. stop ≡ Stop.OutOfMemory)) }
        ensures same { S.book source.new ≡ S.book source.old }
    {
        make_place(&mut self.rows, self.used, key)?;
        read_at(&mut self.rows, self.used, key, source)?;
        self.used += 1;
        Ok(())
    }
}

// Makes one more place behind so many rows, where there is none; what stands there is written over.
#[inline(always)]
fn make_place(
    rows: &mut Vec<(RowKey, Option<RowVal>)>,
    used: usize,
    key: &RowKey,
) -> Result<(), AllocError>
    requires { used ≤ length rows.old.items }
    ensures kept { take used rows.new.items ≡ take used rows.old.items }
    ensures within { used ≤ length rows.new.items }
    ensures ok { OnOk result (used < length rows.new.items) }
{
    if used < rows.len() {
        return Ok(());
    }
    push_row(rows, *key, &None)
}

// Appends a copy of a row, where no place can be used again.
#[inline(never)]
fn push_row<V: Copy + Drop>(
    rows: &mut Vec<(RowKey, V)>,
    key: RowKey,
    row: &V,
) -> Result<(), AllocError>
    ensures ok { OnOk result (rows.new.items ≡ rows.old.items ++ (key, row.now) ∷ []) }
    ensures err { OnErr result (rows.new.items ≡ rows.old.items) }
{
    rows.reserve(1)?;
    rows.push_reserved((key, *row));
    Ok(())
}

// Writes a copy of a row over the one at a place.
#[inline(always)]
fn write_over(rows: &mut [(RowKey, RowVal)], place: usize, key: &RowKey, row: &RowVal)
    requires { place < length rows.old }
    ensures { rows.new ≡ set rows.old place (key.now, row.now) }
{
    let there = &mut rows[place];
    there.0 = *key;
    there.1.copy_from(row);
}

// Asks the source for a row, and writes the answer over the row at a place, behind it its key: one that was just made is slow to copy.
#[inline(always)]
fn read_at<S: RowSource>(
    rows: &mut [(RowKey, Option<RowVal>)],
    place: usize,
    key: &RowKey,
    source: &mut S,
) -> Result<(), Stop>
    requires { place < length rows.old }
    ensures length { length rows.new ≡ length rows.old }
    ensures others { take place rows.new ≡ take place rows.old }
    ensures ok { OnOk result (rows.new ≡ set rows.old place (key.now, latest (take (place + 1) rows.new))) }
    ensures answers { S.answers source.old key.now (answer_of result (latest (take (place + 1) rows.new))) source.new }
    ensures kind { OnOk result (IfSome (latest (take (place + 1) rows.new)) (IsOfKind key.now)) }
    ensures known { OnOk result (IfSome (S.book source.old) (λ rows_known. latest (take (place + 1) rows.new) ≡ map.get rows_known key.now)) }
    ensures stops { IfSome (S.book source.old) (λ _. IfErr result (λ stop. stop ≡ Stop.OutOfMemory)) }
    ensures same { S.book source.new ≡ S.book source.old }
{
    let there = &mut rows[place];
    let read = source.read_into(key, &mut there.1);
    there.0 = *key;
    read
}

/// Where a row stands, if it is in the list.
pub(crate) fn place_of<V>(rows: &[(RowKey, V)], key: &RowKey) -> Option<usize>
    ensures found { IfSome result (λ place. (row : V) × (slice_get rows.now place ≡ Some (key.now, row))) }
    ensures within { IfSome result (λ place. place < length rows.now) }
    ensures absent { IfNone result (value_in rows.now key.now ≡ None) }
{
    for (place, entry) in rows.iter().enumerate() {
        if *key == entry.0 {
            return Some(place);
        }
    }
    None
}
