ghost use Rattle.std.specs.Prelude.{◌≡◌, ◌≢◌, ◌↔◌, ℕ, ◌<◌, ◌≤◌, [], length, Some, None, IsTrue, IfOk, IfSome, IfNone, IsSome, OnOk, OnErr, option_map};
ghost use Rattle.indexmap.specs.IndexMap.{insert_index};
ghost use Rattle.issuer_words.specs.Words.{IsOfKind, RowKey, key_eq};
ghost use Rattle.issuer_view.specs.Words.{IsOnceEach, value_in};
ghost use Rattle.std.specs.Option.{option_copied};
ghost use Rattle.stm_memory.specs.Chains.{stands, seen_of, row_at, rows_of, room_of, links_in, AreInOrder, IsChangedAt, IsMade};
ghost use Rattle.stm_memory.specs.Entries.{estimate_of, value_at};
ghost use Rattle.stm_memory.specs.Resolves.{Resolves, IsSeenOfKind, IsWithinDigitsOf};

use crate::chain::Chain;
use crate::link::Link;
use crate::version::Version;
use indexmap::IndexMap;
use indexmap::map::Entry;
use issuer_rows::{RowKey, RowVal};
use std::alloc::{AllocError, Global};
use std::marker::Model;

/// A chain for each row, found by one look-up. A row keeps its number: no chain is taken out.
#[derive(Drop)]
pub struct Chains {
    rows: IndexMap<RowKey, Chain>,
}

impl Model for Chains {
    ghost use Rattle.stm_memory.specs.Chains.{Chains, AreSound};

    ghost Value = { Chains };

    ghost view = { λ c. c.rows.entries };

    ghost invariant = { λ c. AreSound c.rows.entries };
}

impl Chains {
    /// No chains yet.
    pub fn new(alloc: Global) -> Chains
        ensures { result ≡ [] }
    {
        Chains {
            rows: IndexMap::new(alloc),
        }
    }

    /// How many rows have a chain.
    pub(crate) fn len(&self) -> usize
        ensures { result ≡ length self.now }
    {
        self.rows.len()
    }

    /// The row with this number.
    pub(crate) fn row(&self, number: usize) -> &RowKey
        requires { number < length self.now }
        ensures { row_at self.now number ≡ Some result.now }
    {
        match self.rows.get_index(number) {
            Some((row, _)) => row,
            None => unreachable!(),
        }
    }

    // Whether this is the row's number.
    fn is_number_of(&self, number: usize, row: &RowKey) -> bool
        ensures { IsTrue result ↔ (row_at self.now number ≡ Some row.now) }
    {
        match self.rows.get_index(number) {
            Some((other, _)) => *other == *row,
            None => false,
        }
    }

    // The row's number, if it is among these.
    fn number_among(&self, row: &RowKey, numbers: &[usize]) -> Option<usize>
        ensures { IfSome result (λ number. row_at self.now number ≡ Some row.now) }
    {
        for number in numbers {
            if self.is_number_of(*number, row) {
                return Some(*number);
            }
        }
        None
    }

    /// The row's number, if it has a chain. It is looked for among these numbers first, which takes no hashing.
    pub fn number_of(&self, row: &RowKey, numbers: &[usize]) -> Option<usize>
        ensures found { IfSome result (λ number. row_at self.now number ≡ Some row.now) }
        ensures absent { IfNone result (value_in self.now row.now ≡ None) }
    {
        match self.number_among(row, numbers) {
            Some(number) => Some(number),
            None => self.rows.get_index_of(row),
        }
    }

    /// The nearest entry below the index of the row with this number, if there is one.
    pub fn nearest_at(&self, number: usize, index: u32) -> Option<&Link>
        requires { number < length self.now }
        ensures seen { (row : RowKey) → row_at self.now number ≡ Some row → Resolves (stands self.now) row index (seen_of (option_copied result)) }
        ensures kind { (row : RowKey) → row_at self.now number ≡ Some row → IsSeenOfKind row (seen_of (option_copied result)) }
    {
        match self.rows.get_index(number) {
            Some((_, chain)) => chain.nearest_below(index),
            None => unreachable!(),
        }
    }

    /// The row's nearest entry below the index, if there is one; and the row's number, if it has a chain.
    pub fn look(&self, row: &RowKey, index: u32) -> (Option<&Link>, Option<usize>)
        ensures seen { Resolves (stands self.now) row.now index (seen_of (option_copied result.0)) }
        ensures kind { IsSeenOfKind row.now (seen_of (option_copied result.0)) }
        ensures number { IfSome result.1 (λ number. row_at self.now number ≡ Some row.now) }
        ensures absent { IfNone result.1 (value_in self.now row.now ≡ None) }
    {
        match self.number_of(row, &[]) {
            Some(number) => (self.nearest_at(number, index), Some(number)),
            None => (None, None),
        }
    }

    /// The row's nearest entry below the index, if there is one. The row's chain is looked for among these numbers first.
    pub fn nearest_below(&self, row: &RowKey, numbers: &[usize], index: u32) -> Option<&Link>
        ensures seen { Resolves (stands self.now) row.now index (seen_of (option_copied result)) }
        ensures kind { IsSeenOfKind row.now (seen_of (option_copied result)) }
    {
        match self.number_of(row, numbers) {
            Some(number) => self.nearest_at(number, index),
            None => None,
        }
    }

    // The nearest entry below the index of the row with this number, if there is one, by halves, and how many indices were compared to
    // find it.
    fn counted_at(&self, number: usize, index: u32) -> (Option<&Link>, u32)
        requires { number < length self.now }
        ensures seen { (row : RowKey) → row_at self.now number ≡ Some row → Resolves (stands self.now) row index (seen_of (option_copied result.0)) }
        ensures kind { (row : RowKey) → row_at self.now number ≡ Some row → IsSeenOfKind row (seen_of (option_copied result.0)) }
        ensures comparisons { (row : RowKey) → row_at self.now number ≡ Some row → IsWithinDigitsOf result.1 (length (links_in (value_in self.now row))) }
        ensures order { (row : RowKey) → row_at self.now number ≡ Some row → AreInOrder (links_in (value_in self.now row)) }
    {
        match self.rows.get_index(number) {
            Some((_, chain)) => chain.counted_below(index),
            None => unreachable!(),
        }
    }

    /// The row's nearest entry below the index, if there is one, by halves, and how many indices were compared to find it.
    pub(crate) fn counted_below(&self, row: &RowKey, index: u32) -> (Option<&Link>, u32)
        ensures seen { Resolves (stands self.now) row.now index (seen_of (option_copied result.0)) }
        ensures kind { IsSeenOfKind row.now (seen_of (option_copied result.0)) }
        ensures comparisons { IsWithinDigitsOf result.1 (length (links_in (value_in self.now row.now))) }
        ensures order { AreInOrder (links_in (value_in self.now row.now)) }
    {
        match self.number_of(row, &[]) {
            Some(number) => self.counted_at(number, index),
            None => (None, 0),
        }
    }

    // Makes room for one more entry of the row with this number.
    fn reserve_at(&mut self, number: usize) -> Result<(), AllocError>
        requires { number < length self.old }
        ensures stands { (r : RowKey) (i : ℕ) → stands self.new r i ≡ stands self.old r i }
        ensures room { (r : RowKey) → row_at self.old number ≡ Some r → OnOk result (0 < room_of self.new r) }
        ensures others { (r : RowKey) → 0 < room_of self.old r → 0 < room_of self.new r }
        ensures numbers { (n : ℕ) (r : RowKey) → row_at self.old n ≡ Some r → row_at self.new n ≡ Some r }
        ensures once { IsOnceEach self.old → IsOnceEach self.new }
    {
        let Some(chain) = self.rows.get_index_mut(number) else {
            unreachable!();
        };
        chain.reserve()
    }

    // Makes the row's chain, if it has none. Returns the row's number.
    fn add(&mut self, alloc: Global, row: &RowKey) -> Result<usize, AllocError>
        ensures number { IfOk result (λ number. row_at self.new number ≡ Some row.now) }
        ensures stands { (r : RowKey) (i : ℕ) → stands self.new r i ≡ stands self.old r i }
        ensures others { (r : RowKey) → 0 < room_of self.old r → 0 < room_of self.new r }
        ensures numbers { (n : ℕ) (r : RowKey) → row_at self.old n ≡ Some r → row_at self.new n ≡ Some r }
        ensures once { IsOnceEach self.old → IsOnceEach self.new }
    {
        make_chain(&mut self.rows, alloc, row)
    }

    /// Makes the row's chain, if it has none, and room in it for one more entry. The chain is looked for among these numbers first.
    /// Returns the row's number. It fails only where memory runs out.
    pub fn reserve(
        &mut self,
        alloc: Global,
        row: &RowKey,
        numbers: &[usize],
    ) -> Result<usize, AllocError>
        ensures number { IfOk result (λ number. row_at self.new number ≡ Some row.now) }
        ensures stands { (r : RowKey) (i : ℕ) → stands self.new r i ≡ stands self.old r i }
        ensures room { OnOk result (0 < room_of self.new row.now) }
        ensures others { (r : RowKey) → 0 < room_of self.old r → 0 < room_of self.new r }
        ensures numbers { (n : ℕ) (r : RowKey) → row_at self.old n ≡ Some r → row_at self.new n ≡ Some r }
        ensures once { IsOnceEach self.old → IsOnceEach self.new }
    {
        if let Some(number) = self.number_among(row, numbers) {
            self.reserve_at(number)?;
            return Ok(number);
        }
        let number = self.add(alloc, row)?;
        self.reserve_at(number)?;
        Ok(number)
    }

    /// Writes this value as the version's entry of the row, over the one that its index has. The row's chain is looked for among these
    /// numbers first. Returns the row's number, and whether its index had none.
    pub fn put(
        &mut self,
        row: &RowKey,
        numbers: &[usize],
        version: Version,
        value: &RowVal,
    ) -> (usize, bool)
        requires room { 0 < room_of self.old row.now }
        requires kind { IsOfKind row.now value.now }
        ensures changed { IsChangedAt self.old self.new row.now version.index (Some (value_at version.incarnation value.now)) }
        ensures number { row_at self.new result.0 ≡ Some row.now }
        ensures new { IsTrue result.1 ↔ (stands self.old row.now version.index ≡ None) }
        ensures rows { rows_of self.new ≡ rows_of self.old }
        ensures others { (r : RowKey) → r ≢ row.now → room_of self.new r ≡ room_of self.old r }
    {
        let Some(number) = self.number_of(row, numbers) else {
            unreachable!();
        };
        let is_new = self.put_at(number, version, value);
        (number, is_new)
    }

    /// Writes this value as the version's entry of the row with this number, over the one that its index has. Returns whether its index
    /// had none.
    pub fn put_at(&mut self, number: usize, version: Version, value: &RowVal) -> bool
        requires within { number < length self.old }
        requires room { (row : RowKey) → row_at self.old number ≡ Some row → 0 < room_of self.old row }
        requires kind { (row : RowKey) → row_at self.old number ≡ Some row → IsOfKind row value.now }
        ensures changed { (row : RowKey) → row_at self.old number ≡ Some row → IsChangedAt self.old self.new row version.index (Some (value_at version.incarnation value.now)) }
        ensures new { (row : RowKey) → row_at self.old number ≡ Some row → (IsTrue result ↔ (stands self.old row version.index ≡ None)) }
        ensures rows { rows_of self.new ≡ rows_of self.old }
        ensures others { (r : RowKey) → row_at self.old number ≢ Some r → room_of self.new r ≡ room_of self.old r }
    {
        let Some(chain) = self.rows.get_index_mut(number) else {
            unreachable!();
        };
        chain.put(version, value)
    }

    /// The index of the first entry of the row with this number, where the row has another one below this index: no message from there on
    /// sees the first.
    pub fn superseded(&self, number: usize, index: u32) -> Option<u32>
        requires { number < length self.now }
        ensures { IfSome result (λ first. (row : RowKey) → row_at self.now number ≡ Some row
            → (next : ℕ) × (first < next) × (next < index) × IsSome (stands self.now row next)) }
    {
        match self.rows.get_index(number) {
            Some((_, chain)) => chain.superseded(index),
            None => unreachable!(),
        }
    }

    /// Takes out the entry that the row with this number has at the index, if there is one.
    pub fn take_out(&mut self, number: usize, index: u32)
        requires { number < length self.old }
        ensures changed { (row : RowKey) → row_at self.old number ≡ Some row → IsChangedAt self.old self.new row index None }
        ensures rows { rows_of self.new ≡ rows_of self.old }
        ensures room { (r : RowKey) → room_of self.old r ≤ room_of self.new r }
    {
        let Some(chain) = self.rows.get_index_mut(number) else {
            unreachable!();
        };
        chain.take_out(index);
    }

    /// The entry that the row with this number has at the index, if there is one, is an ESTIMATE from now on.
    pub fn to_estimate(&mut self, number: usize, index: u32)
        requires { number < length self.old }
        ensures changed { (row : RowKey) → row_at self.old number ≡ Some row → IsChangedAt self.old self.new row index (option_map estimate_of (stands self.old row index)) }
        ensures rows { rows_of self.new ≡ rows_of self.old }
    {
        let Some(chain) = self.rows.get_index_mut(number) else {
            unreachable!();
        };
        chain.to_estimate(index);
    }
}

// Makes the row's chain, if it has none, by one look-up. An entry takes the chain without handing one back. Returns the row's number.
fn make_chain(
    rows: &mut IndexMap<RowKey, Chain>,
    alloc: Global,
    row: &RowKey,
) -> Result<usize, AllocError>
    ensures number { IfOk result (λ number. number ≡ insert_index key_eq rows.old row.now) }
    ensures made { OnOk result (IsMade rows.old.entries rows.new.entries row.now) }
    ensures err { OnErr result (rows.new.entries ≡ rows.old.entries) }
    ensures once { IsOnceEach rows.new.entries }
{
    match rows.entry(*row)? {
        Entry::Occupied(entry) => Ok(entry.index()),
        Entry::Vacant(entry) => {
            let number = entry.index();
            entry.insert(Chain::new(alloc));
            Ok(number)
        }
    }
}
