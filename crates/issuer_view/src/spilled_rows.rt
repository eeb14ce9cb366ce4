//! The rows of a set that stand behind its first ones, in a map.

ghost use Rattle.std.specs.Prelude.{◌≡◌, ◌<◌, ◌^◌, ◌-◌, [], Some, None, length, slice_get, option_map, option_copied, IsOk, IsSome, IfOk, IfErr, IfSome, OnOk, OnErr};
ghost use Rattle.std.specs.FinMap as map;
ghost use Rattle.std.specs.Map.Iter.{deref_pair};
ghost use Rattle.indexmap.specs.IndexMap.{insert_entry, spare};
ghost use Rattle.issuer_words.specs.Words.{IsOfKind, key_eq};
ghost use Rattle.issuer_view.specs.Recording.{answer_of, AsksOnce};
ghost use Rattle.issuer_view.specs.RowSets.{value_in, latest, logged, rows_in};

use crate::row_source::RowSource;
use crate::stop::Stop;
use indexmap::IndexMap;
use issuer_rows::{RowKey, RowVal};
use std::alloc::{AllocError, Global};
use std::marker::Model;

/// The rows of a set behind its first ones, in a map that is made when the first of them comes. Most sets have none, and
/// are moved from hand to hand with their message, so the map stands in a box.
#[derive(Drop)]
pub(crate) struct SpilledRows<V> {
    map: Option<BoxedRows<V>>,
}

impl<V> Model for SpilledRows<V> {
    ghost use Rattle.std.specs.Prelude.{List};
    ghost use Rattle.issuer_rows.specs.declared.row_key.RowKey.{RowKey};
    ghost use Rattle.issuer_view.specs.RowSets.{rows_in};

    ghost Value = { List (RowKey × V) };

    ghost view = { λ b. rows_in b.map };
}

impl<V> SpilledRows<V> {
    /// No rows.
    pub(crate) fn new() -> SpilledRows<V>
        ensures { result ≡ [] }
    {
        SpilledRows { map: None }
    }

    /// How many rows there are.
    pub(crate) fn len(&self) -> usize
        ensures len { result ≡ length self.now }
        ensures small { length self.now < 2 ^ 63 }
    {
        match &self.map {
            Some(rows) => rows.len(),
            None => 0,
        }
    }

    /// The row at this place, and what it holds.
    pub(crate) fn row(&self, index: usize) -> Option<(&RowKey, &V)>
        ensures { option_map deref_pair result ≡ slice_get self.now index }
    {
        match &self.map {
            Some(rows) => rows.map.get_index(index),
            None => None,
        }
    }

    /// What the row holds, if it is here.
    pub(crate) fn get(&self, key: &RowKey) -> Option<&V>
        ensures { option_copied result ≡ value_in self.now key.now }
    {
        match &self.map {
            Some(rows) => rows.get(key),
            None => None,
        }
    }
}

impl<V: Drop> SpilledRows<V> {
    /// Takes all rows out, and keeps the memory.
    pub(crate) fn clear(&mut self)
        ensures { self.new ≡ [] }
    {
        match &mut self.map {
            Some(rows) => rows.map.clear(),
            None => {}
        }
    }
}

impl<V: Copy + Drop> SpilledRows<V> {
    /// Writes a copy of a row, over what was there.
    pub(crate) fn insert_copy(
        &mut self,
        alloc: Global,
        key: &RowKey,
        row: &V,
    ) -> Result<(), AllocError>
        ensures ok { OnOk result (self.new ≡ insert_entry key_eq self.old key.now row.now) }
        ensures err { OnErr result (self.new ≡ self.old) }
        ensures absent { OnErr result (value_in self.old key.now ≡ None) }
    {
        make_map(&mut self.map, alloc)?;
        match &mut self.map {
            Some(rows) => insert_copy(&mut rows.map, key, row),
            None => unreachable!(),
        }
    }
}

impl SpilledRows<Option<RowVal>> {
    /// Makes room, asks the source for a row that was not read yet, and logs the answer.
    pub(crate) fn ask_more<S: RowSource>(
        &mut self,
        alloc: Global,
        key: &RowKey,
        source: &mut S,
    ) -> Result<(), Stop>
        requires { value_in self.old key.now ≡ None }
        ensures asked { AsksOnce S.answers source.old key.now (answer_of result (latest self.new)) source.new }
        ensures ok { OnOk result (self.new ≡ logged self.old key.now (latest self.new)) }
        ensures err { OnErr result (self.new ≡ self.old) }
        ensures kind { OnOk result (IfSome (latest self.new) (IsOfKind key.now)) }
        ensures known { OnOk result (IfSome (S.book source.old) (λ rows. latest self.new ≡ map.get rows key.now)) }
        ensures stops { IfSome (S.book source.old) (λ _. IfErr result (λ stop. stop ≡ Stop.OutOfMemory)) }
        ensures same { S.book source.new ≡ S.book source.old }
    {
        make_map(&mut self.map, alloc)?;
        match &mut self.map {
            Some(rows) => ask_map(&mut rows.map, key, source),
            None => unreachable!(),
        }
    }
}

// Rows in a map in a box.
#[derive(Drop)]
struct BoxedRows<V> {
    map: Box<IndexMap<RowKey, V>>,
}

impl<V> Model for BoxedRows<V> {
    ghost use Rattle.std.specs.Prelude.{List};
    ghost use Rattle.issuer_rows.specs.declared.row_key.RowKey.{RowKey};

    ghost Value = { List (RowKey × V) };

    ghost view = { λ b. b.map.value.entries };
}

impl<V> BoxedRows<V> {
    fn len(&self) -> usize
        ensures len { result ≡ length self.now }
        ensures small { length self.now < 2 ^ 63 }
    {
        self.map.len()
    }

    fn get(&self, key: &RowKey) -> Option<&V>
        ensures { option_copied result ≡ value_in self.now key.now }
    {
        self.map.get(key)
    }
}

impl<V: Drop> BoxedRows<V> {
    fn new(alloc: Global) -> Result<BoxedRows<V>, AllocError>
        ensures { IfOk result (λ rows. rows ≡ []) }
    {
        Ok(BoxedRows {
            map: Box::new(alloc, IndexMap::new(alloc))?,
        })
    }
}

// Makes the map, where there is none yet.
fn make_map<V: Drop>(map: &mut Option<BoxedRows<V>>, alloc: Global) -> Result<(), AllocError>
    ensures rows { rows_in map.new ≡ rows_in map.old }
    ensures made { OnOk result (IsSome map.new) }
    ensures none { OnErr result (rows_in map.old ≡ []) }
{
    if map.is_none() {
        *map = Some(BoxedRows::new(alloc)?);
    }
    Ok(())
}

// Writes a copy of a row into a map, over what was there.
#[inline(never)]
pub(crate) fn insert_copy<V: Copy + Drop>(
    rows: &mut IndexMap<RowKey, V>,
    key: &RowKey,
    row: &V,
) -> Result<(), AllocError>
    ensures ok { OnOk result (rows.new.entries ≡ insert_entry key_eq rows.old.entries key.now row.now) }
    ensures err { OnErr result (rows.new.entries ≡ rows.old.entries) }
    ensures absent { OnErr result (value_in rows.old.entries key.now ≡ None) }
    ensures room { 0 < spare rows.old → IsOk result }
{
    match rows.insert(*key, *row) {
        Ok(_) => Ok(()),
        Err(_) => Err(AllocError),
    }
}

// Makes room in a map, asks the source for a row that was not read yet, and logs the answer.
#[inline(never)]
fn ask_map<S: RowSource>(
    rows: &mut IndexMap<RowKey, Option<RowVal>>,
    key: &RowKey,
    source: &mut S,
) -> Result<(), Stop>
    requires { value_in rows.old.entries key.now ≡ None }
    ensures asked { AsksOnce S.answers source.old key.now (answer_of result (latest rows.new.entries)) source.new }
    ensures ok { OnOk result (rows.new.entries ≡ logged rows.old.entries key.now (latest rows.new.entries)) }
    ensures err { OnErr result (rows.new.entries ≡ rows.old.entries) }
    ensures kind { OnOk result (IfSome (latest rows.new.entries) (IsOfKind key.now)) }
    ensures known { OnOk result (IfSome (S.book source.old) (λ known. latest rows.new.entries ≡ map.get known key.now)) }
    ensures stops { IfSome (S.book source.old) (λ _. IfErr result (λ stop. stop ≡ Stop.OutOfMemory)) }
    ensures same { S.book source.new ≡ S.book source.old }
{
    rows.reserve(1)?;
    let mut answer = None;
    source.read_into(key, &mut answer)?;
    match insert_copy(rows, key, &answer) {
        Ok(()) => Ok(()),
        Err(_) => unreachable!(),
    }
}
