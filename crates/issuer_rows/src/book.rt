ghost use Rattle.std.specs.Prelude.{◌≡◌, ◌+◌, ◌<◌, ◌≤◌, ◌↔◌, length, slice_get, option_copied, OnOk, OnErr, IfOk, IfSome, IsOk, IsTrue, IsFalse, IsPermutation, None, Some};
ghost use Rattle.std.specs.FinMap as map;
ghost use Rattle.indexmap.specs.IndexMap.{Updates, spare};
ghost use Rattle.issuer_rows.specs.Book.{AllOfKind, AreOfKind, IsWithin, value_at};
ghost use Rattle.issuer_rows.specs.Fold.{overlay};
ghost use Rattle.issuer_rows.specs.RowVal.{IsOfKind};
ghost use Rattle.issuer_rows.specs.RowKey.{key_cmp, key_eq};

use crate::places::{KINDS, Places};
use crate::row_key::RowKey;
use crate::row_val::RowVal;
use crate::rows_to_write::RowsToWrite;
use crate::sorted_rows::SortedRows;
use indexmap::IndexMap;
use indexmap::map::{Entry, Iter};
use std::alloc::{AllocError, Global};
use std::marker::Model;
use std::thread::Threads;

/// The issuer's rows: a finite map from row keys to row values, each of its key's kind. A row is found by its key's hash.
#[derive(Drop)]
pub struct Book {
    rows: IndexMap<RowKey, RowVal>,
}

impl Model for Book {
    ghost use Rattle.std.specs.FinMap as map;
    ghost use Rattle.issuer_rows.specs.declared.row_val.RowVal.{RowVal};
    ghost use Rattle.issuer_rows.specs.RowKey.{key_cmp};
    ghost use Rattle.issuer_rows.specs.contracts.row_key.RowKey.{the_row as key_row};
    ghost use Rattle.issuer_rows.specs.contracts.row_val.RowVal.{the_row as val_row};
    ghost use Rattle.issuer_rows.specs.Book.{AreOfKind};

    ghost Value = { map.FinMap key_cmp RowVal };

    ghost coded = { map.code key_row.coded val_row.coded };

    ghost view = { λ b. map.from_entries b.rows.entries };

    ghost invariant = { λ b. AreOfKind b.rows.entries };
}

impl Book {
    /// A book without rows.
    pub fn new(alloc: Global) -> Book
        ensures { result ≡ map.empty }
    {
        Book {
            rows: IndexMap::new(alloc),
        }
    }

    /// The row's value, if there is such a row.
    #[tactic(auto, using(crate::proofs::BookLaws::get_seen))]
    pub fn get(&self, key: &RowKey) -> Option<RowVal>
        ensures value { result ≡ map.get self.now key.now }
        ensures kind { IfSome result (IsOfKind key.now) }
    {
        self.rows.get(key).copied()
    }

    /// The row's value where it stands, if there is such a row.
    #[tactic(auto, using(crate::proofs::BookLaws::get_seen))]
    pub fn row(&self, key: &RowKey) -> Option<&RowVal>
        ensures value { option_copied result ≡ map.get self.now key.now }
        ensures kind { IfSome result (λ val. IsOfKind key.now val.now) }
    {
        self.rows.get(key)
    }

    /// The row's value where it stands, if there is such a row, without a look-up where it stands at its noted place; else its
    /// place is noted.
    #[inline(always)]
    #[tactic(auto, using(crate::proofs::BookLaws::get_seen))]
    pub fn find(&self, key: &RowKey, places: &mut Places) -> Option<&RowVal>
        ensures value { option_copied result ≡ map.get self.now key.now }
        ensures kind { IfSome result (λ val. IsOfKind key.now val.now) }
    {
        if let Some(val) = self.row_near(key, places) {
            return Some(val);
        }
        let (place, _, val) = self.rows.get_full(key)?;
        places.note(key, place);
        Some(val)
    }

    // The row's value where it stands, if that is its noted place.
    #[inline(always)]
    fn row_near(&self, key: &RowKey, places: &Places) -> Option<&RowVal>
        ensures value { IfSome result (λ val. map.get self.now key.now ≡ Some val.now) }
        ensures kind { IfSome result (λ val. IsOfKind key.now val.now) }
    {
        let _count = self.rows.len();
        let val = row_at(&self.rows, places.last(key), key)?;
        Some(val)
    }

    // Forgets those places at which no row of their kind stands.
    #[inline(always)]
    pub(crate) fn keep_standing(&self, places: &mut Places) {
        for kind in 0..KINDS {
            if !self.has_at(places.last_of(kind), kind) {
                places.forget(kind);
            }
        }
    }

    // Whether a row of this kind stands at the place.
    #[inline(always)]
    fn has_at(&self, place: usize, kind: u8) -> bool {
        match self.rows.get_index(place) {
            Some((key, val)) => key.kind() == kind && val.suits(key),
            None => false,
        }
    }

    /// Makes room for as many more rows, so that they are written without moving those that are there. It fails where memory runs out;
    /// the book is the same either way.
    pub fn reserve(&mut self, additional: usize) -> Result<(), AllocError>
        ensures { self.new ≡ self.old }
    {
        self.rows.reserve(additional)?;
        Ok(())
    }

    /// Writes the value at the key, over what was there. Only a row that wasn't there takes memory.
    pub fn put(&mut self, key: RowKey, val: RowVal) -> Result<(), AllocError>
        requires { IsOfKind key val }
        ensures ok { OnOk result (self.new ≡ map.insert self.old key val) }
        ensures err { OnErr result (self.new ≡ self.old) }
        ensures full { OnErr result (map.get self.old key ≡ None) }
    {
        self.put_copy(&key, &val)
    }

    /// Writes a copy of the value at the key, over what was there. Only a row that wasn't there takes memory.
    pub fn put_copy(&mut self, key: &RowKey, val: &RowVal) -> Result<(), AllocError>
        requires { IsOfKind key.now val.now }
        ensures ok { OnOk result (self.new ≡ map.insert self.old key.now val.now) }
        ensures err { OnErr result (self.new ≡ self.old) }
        ensures full { OnErr result (map.get self.old key.now ≡ None) }
    {
        put_entry(&mut self.rows, key, val)
    }

    /// The same, without a look-up where the row stands at its noted place; the place of a row that wasn't there is noted.
    #[inline(always)]
    pub fn put_copy_near(
        &mut self,
        key: &RowKey,
        val: &RowVal,
        places: &mut Places,
    ) -> Result<(), AllocError>
        requires { IsOfKind key.now val.now }
        ensures ok { OnOk result (self.new ≡ map.insert self.old key.now val.now) }
        ensures err { OnErr result (self.new ≡ self.old) }
        ensures full { OnErr result (map.get self.old key.now ≡ None) }
    {
        if copy_at(&mut self.rows, places.last(key), key, val) {
            return Ok(());
        }
        put_noting(&mut self.rows, key, val, places)
    }

    /// Writes these rows, one after another. Room is made for all of them first: only there can memory run out, and then none
    /// is written. A row that stands at its noted place isn't looked up.
    #[inline(always)]
    pub fn put_all<W: RowsToWrite>(
        &mut self,
        written: &W,
        places: &mut Places,
    ) -> Result<(), AllocError>
        ensures ok { OnOk result (self.new ≡ overlay self.old (W.rows written.now)) }
        ensures err { OnErr result (self.new ≡ self.old) }
    {
        self.rows.reserve(written.len())?;
        put_each(&mut self.rows, written, places);
        Ok(())
    }

    /// Takes the row out, and returns its value, if there was such a row.
    #[tactic(auto, using(crate::proofs::BookLaws::get_seen))]
    pub fn remove(&mut self, key: &RowKey) -> Option<RowVal>
        ensures value { result ≡ map.get self.old key.now }
        ensures after { self.new ≡ map.remove self.old key.now }
    {
        self.rows.swap_remove(key)
    }

    /// How many rows there are.
    pub fn len(&self) -> usize
        ensures { result ≡ map.len self.now }
    {
        self.rows.len()
    }

    /// Whether there is no row.
    pub fn is_empty(&self) -> bool
        ensures { IsTrue result ↔ (map.len self.now ≡ 0) }
    {
        self.len() == 0
    }

    /// The rows, sorted by their keys. It fails only where memory runs out.
    pub fn sorted_rows(&self, alloc: Global) -> Result<SortedRows<'_>, AllocError>
        ensures rows { IfOk result (λ rows. rows ≡ map.entries self.now) }
        ensures kinds { AllOfKind (map.entries self.now) }
    {
        SortedRows::new(alloc, self.rows.iter())
    }

    /// The same, where several threads sort them.
    pub fn rows_sorted_by_threads<R: Threads + Sync>(
        &self,
        rt: &R,
        alloc: Global,
    ) -> Result<SortedRows<'_>, AllocError>
        ensures rows { IfOk result (λ rows. rows ≡ map.entries self.now) }
        ensures kinds { AllOfKind (map.entries self.now) }
    {
        SortedRows::by_threads(rt, alloc, self.rows.iter())
    }

    /// The rows, each once, in any order.
    pub fn rows(&self) -> Iter<'_, RowKey, RowVal>
        ensures { IsPermutation (map.entries self.now) result }
    {
        self.rows.iter()
    }

    /// An equal book of its own. It fails only where memory runs out.
    pub fn copy(&self) -> Result<Book, AllocError>
        ensures { IfOk result (λ book. book ≡ self.now) }
    {
        Ok(Book {
            rows: self.rows.clone()?,
        })
    }

    /// Whether the other book has the same rows.
    #[tactic(auto, using(crate::proofs::BookLaws::same_both_ways))]
    pub fn is_same(&self, other: &Book) -> bool
        ensures { IsTrue result ↔ (self.now ≡ other.now) }
    {
        self.is_within(other) && other.is_within(self)
    }

    // Whether the other book has each row of this one.
    fn is_within(&self, other: &Book) -> bool
        ensures { IsTrue result ↔ IsWithin self.now other.now }
    {
        for (key, val) in self.rows.iter() {
            if !other.has(key, val) {
                return false;
            }
        }
        true
    }

    // Whether the row has this value.
    fn has(&self, key: &RowKey, val: &RowVal) -> bool
        ensures { IsTrue result ↔ (map.get self.now key.now ≡ Some val.now) }
    {
        match self.row(key) {
            Some(found) => found.is_same(val),
            None => false,
        }
    }
}

// Writes these rows, for which there is room, one after another.
#[inline(always)]
fn put_each<W: RowsToWrite>(rows: &mut IndexMap<RowKey, RowVal>, written: &W, places: &mut Places)
    requires room { length (W.rows written.now) ≤ spare rows.old }
    requires kinds { AreOfKind rows.old.entries }
    ensures rows { map.from_entries rows.new.entries ≡ overlay (map.from_entries rows.old.entries) (W.rows written.now) }
    ensures kinds { AreOfKind rows.new.entries }
{
    for index in 0..written.len() {
        let (key, val) = written.row(index);
        put_in_room(rows, key, val, places);
    }
}

// Writes a copy of a row where there is room for it.
#[inline(always)]
fn put_in_room(rows: &mut IndexMap<RowKey, RowVal>, key: &RowKey, val: &RowVal, places: &mut Places)
    requires { 0 < spare rows.old }
    ensures updates { Updates key_eq rows.old rows.new key.now (Some val.now) }
    ensures room { spare rows.old ≤ spare rows.new + 1 }
{
    if !copy_at(rows, places.last(key), key, val) && put_noting(rows, key, val, places).is_err() {
        unreachable!()
    }
}

// Writes a copy of a row, by one look-up. An entry takes the value without handing one back.
fn put_entry(
    rows: &mut IndexMap<RowKey, RowVal>,
    key: &RowKey,
    val: &RowVal,
) -> Result<(), AllocError>
    ensures updates { OnOk result (Updates key_eq rows.old rows.new key.now (Some val.now)) }
    ensures err { OnErr result (rows.new.entries ≡ rows.old.entries) }
    ensures absent { OnErr result (value_at rows.old.entries key.now ≡ None) }
    ensures succeeds { 0 < spare rows.old → IsOk result }
    ensures room { spare rows.old ≤ spare rows.new + 1 }
{
    match rows.entry(*key)? {
        Entry::Occupied(entry) => {
            entry.into_mut().copy_from(val);
        }
        Entry::Vacant(entry) => {
            entry.insert(*val);
        }
    }
    Ok(())
}

// The same; where the row wasn't there, its place is noted.
#[inline(always)]
fn put_noting(
    rows: &mut IndexMap<RowKey, RowVal>,
    key: &RowKey,
    val: &RowVal,
    places: &mut Places,
) -> Result<(), AllocError>
    ensures updates { OnOk result (Updates key_eq rows.old rows.new key.now (Some val.now)) }
    ensures err { OnErr result (rows.new.entries ≡ rows.old.entries) }
    ensures absent { OnErr result (value_at rows.old.entries key.now ≡ None) }
    ensures succeeds { 0 < spare rows.old → IsOk result }
    ensures room { spare rows.old ≤ spare rows.new + 1 }
{
    let count = rows.len();
    put_entry(rows, key, val)?;
    if count < rows.len() {
        places.note(key, count);
    }
    Ok(())
}

// Writes a copy of a row over it, if it stands at this place.
#[inline(always)]
fn copy_at(rows: &mut IndexMap<RowKey, RowVal>, place: usize, key: &RowKey, val: &RowVal) -> bool
    ensures found { IsTrue result → Updates key_eq rows.old rows.new key.now (Some val.now) }
    ensures not_found { IsFalse result → rows.new.entries ≡ rows.old.entries }
    ensures room { spare rows.old ≤ spare rows.new }
{
    if !stands_at(rows, place, key) {
        return false;
    }
    let (_, there) = rows.pair_mut(place);
    there.copy_from(val);
    true
}

// The row's value where it stands, if that is this place.
#[inline(always)]
fn row_at<'a>(rows: &'a IndexMap<RowKey, RowVal>, place: usize, key: &RowKey) -> Option<&'a RowVal>
    ensures { IfSome result (λ val. slice_get rows.now.entries place ≡ Some (key.now, val.now)) }
{
    let (there, val) = rows.get_index(place)?;
    if there == key { Some(val) } else { None }
}

// Whether the row stands at this place.
#[inline(always)]
fn stands_at(rows: &IndexMap<RowKey, RowVal>, place: usize, key: &RowKey) -> bool
    ensures within { IsTrue result → place < length rows.now.entries }
    ensures there { IsTrue result → (val : RowVal) × (slice_get rows.now.entries place ≡ Some (key.now, val)) }
{
    match rows.get_index(place) {
        Some((there, _)) => there == key,
        None => false,
    }
}
