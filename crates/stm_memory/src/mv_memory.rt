ghost use Rattle.std.specs.Prelude.{◌≡◌, ◌≢◌, ◌⊎◌, ◌↔◌, ℕ, ◌<◌, ◌≤◌, length, Some, None, IsSome, IsTrue, IfOk, OnOk, option_map};
ghost use Rattle.std.specs.FinMap as map;
ghost use Rattle.issuer_words.specs.Words.{RowKey, RowVal};
ghost use Rattle.issuer_view.specs.Words.{IsOnceEach, value_in};
ghost use Rattle.std.specs.Option.{option_copied};
ghost use Rattle.stm_memory.specs.Chains.{seen_of, stands, rows_of, room_of, row_at};
ghost use Rattle.stm_memory.specs.Entries.{held, value_at, estimate_of, AreReplaced, AreEstimated, IsNewLocation};
ghost use Rattle.stm_memory.specs.Memory.{HasRoom, AreListed, list_at};
ghost use Rattle.stm_memory.specs.Resolves.{Resolves, IsSeenOfKind, IsWithinDigitsOf, row_count, IsLaidOver};

use crate::chains::Chains;
use crate::link::{Link, seen_of};
use crate::seen::Seen;
use crate::version::Version;
use crate::written_rows::WrittenRows;
use issuer_rows::{Book, RowKey};
use issuer_view::WriteSet;
use std::alloc::{AllocError, Global};
use std::marker::Model;

/// The multi-version memory: what each execution wrote, by row and index (Block-STM). Each row has a chain of entries, in the order of
/// their indices.
///
/// Beside the chains stands, for each message, the list of the rows that it has entries of. So aborting an execution,
/// or recording the next one, goes to these few chains and to no others. The write set of the former execution would
/// say as much, but whoever aborts an execution would have to keep it and hand it in. Listed are the numbers of the
/// chains and not the rows' keys: a chain is then reached without hashing, and a list takes 8 bytes for each row.
#[derive(Drop)]
pub struct MvMemory {
    chains: Chains,
    lists: Vec<WrittenRows>,
    // Where the chains stand for which room was made last.
    numbers: Vec<usize>,
}

impl Model for MvMemory {
    ghost use Rattle.issuer_rows.specs.contracts.row_key.RowKey.{the_row as key_row};
    ghost use Rattle.issuer_rows.specs.contracts.row_val.RowVal.{the_row as val_row};
    ghost use Rattle.stm_memory.specs.Memory.{Memory, memory_code, memory_of, AreKept};

    ghost Value = { Memory };

    ghost coded = { memory_code key_row.coded val_row.coded };

    ghost view = { λ m. memory_of m.chains m.lists.items };

    ghost invariant = { λ m. AreKept m.chains m.lists.items };
}

impl MvMemory {
    /// A memory without entries yet.
    pub fn new(alloc: Global) -> MvMemory
        ensures { result.entries ≡ map.empty }
    {
        MvMemory {
            chains: Chains::new(alloc),
            lists: Vec::new(alloc),
            numbers: Vec::new(alloc),
        }
    }

    /// What the message at this index sees of the row.
    pub fn read(&self, row: &RowKey, index: u32) -> Seen
        ensures seen { Resolves (held self.now.entries) row.now index result }
        ensures kind { IsSeenOfKind row.now result }
    {
        let (seen, _comparisons) = self.read_counted(row, index);
        seen
    }

    /// What the message at this index sees of the row, and how many indices were compared to find it.
    pub fn read_counted(&self, row: &RowKey, index: u32) -> (Seen, u32)
        ensures seen { Resolves (held self.now.entries) row.now index result.0 }
        ensures kind { IsSeenOfKind row.now result.0 }
        ensures comparisons { IsWithinDigitsOf result.1 (row_count self.now.entries row.now) }
    {
        let (link, comparisons) = self.chains.counted_below(row, index);
        (seen_of(link), comparisons)
    }

    /// The entry of the row that the message at this index sees, if there is one, where it stands; and a number for `look_at`.
    pub fn look(&self, row: &RowKey, index: u32) -> (Option<&Link>, usize)
        ensures seen { Resolves (held self.now.entries) row.now index (seen_of (option_copied result.0)) }
        ensures kind { IsSeenOfKind row.now (seen_of (option_copied result.0)) }
    {
        match self.chains.number_of(row, &[]) {
            Some(number) => (self.chains.nearest_at(number, index), number),
            None => (None, usize::MAX),
        }
    }

    /// The same entry. With the number that `look` returned for the row nothing is hashed.
    pub fn look_at(&self, row: &RowKey, number: usize, index: u32) -> Option<&Link>
        ensures seen { Resolves (held self.now.entries) row.now index (seen_of (option_copied result)) }
        ensures kind { IsSeenOfKind row.now (seen_of (option_copied result)) }
    {
        self.chains.nearest_below(row, &[number], index)
    }

    /// Makes room for this write set as that of the message at this index. No entry changes. A row for which `look` returned one of these
    /// numbers is not hashed. It fails only where memory runs out.
    pub fn reserve(
        &mut self,
        alloc: Global,
        index: u32,
        writes: &WriteSet,
        numbers: &[usize],
    ) -> Result<(), AllocError>
        ensures entries { self.new.entries ≡ self.old.entries }
        ensures room { OnOk result (HasRoom self.new.room index writes.now) }
    {
        reserve_list(&mut self.lists, alloc, index as usize, writes.len())?;
        reserve_chains(&mut self.chains, alloc, writes, numbers, &mut self.numbers)
    }

    /// Records the write set of this version in place of all entries of its index. Returns whether a row was written that had none. It
    /// takes no memory: there has to be room.
    pub fn record(&mut self, version: Version, writes: &WriteSet) -> bool
        requires { HasRoom self.old.room version.index writes.now }
        ensures replaced { AreReplaced version writes.now self.old.entries self.new.entries }
        ensures new { IsTrue result ↔ IsNewLocation self.old.entries version.index writes.now }
    {
        let list = &mut self.lists[version.index as usize];
        take_out_others(&mut self.chains, list, version.index, writes);
        put_all(&mut self.chains, list, version, writes, &self.numbers)
    }

    /// All entries of the index are ESTIMATEs from now on.
    pub fn to_estimates(&mut self, index: u32)
        ensures { AreEstimated index self.old.entries self.new.entries }
    {
        if let Some(list) = self.lists.get(index as usize) {
            estimate_all(&mut self.chains, list, index);
        }
    }

    /// The book with each row as the message at this index sees it, where it sees a value. It fails only where memory runs out.
    pub fn overlay(&self, index: u32, book: &Book) -> Result<Book, AllocError>
        ensures { IfOk result (λ laid. IsLaidOver (held self.now.entries) index book.now laid) }
    {
        let mut laid = book.copy()?;
        match lay_over(&self.chains, index, &mut laid) {
            Ok(()) => Ok(laid),
            Err(fault) => Err(fault),
        }
    }
}

// Writes each row as the message at this index sees it to the book, where it sees a value.
fn lay_over(chains: &Chains, index: u32, book: &mut Book) -> Result<(), AllocError>
    ensures { OnOk result (IsLaidOver (stands chains.now) index book.old book.new) }
{
    book.reserve(chains.len())?;
    for number in 0..chains.len() {
        let row = chains.row(number);
        let seen = seen_of(chains.nearest_at(number, index));
        if let Seen::Value(_, value) = seen {
            book.put_copy(row, &value)?;
        }
    }
    Ok(())
}

// Makes the message's list, if it has none, and room in it for so many rows more.
fn reserve_list(
    lists: &mut Vec<WrittenRows>,
    alloc: Global,
    index: usize,
    count: usize,
) -> Result<(), AllocError>
    ensures numbers { (i : ℕ) → (list_at lists.new.items i).numbers ≡ (list_at lists.old.items i).numbers }
    ensures room { OnOk result ((index < length lists.new.items) × (count ≤ (list_at lists.new.items index).room)) }
{
    while lists.len() <= index {
        lists.push(WrittenRows::new(alloc))?;
    }
    lists[index].reserve(count)
}

// Makes the written rows' chains, where they have none, and room for one more entry in each. They are looked for among
// these numbers first; `found` has their numbers then.
fn reserve_chains(
    chains: &mut Chains,
    alloc: Global,
    writes: &WriteSet,
    numbers: &[usize],
    found: &mut Vec<usize>,
) -> Result<(), AllocError>
    ensures stands { (r : RowKey) (i : ℕ) → stands chains.new r i ≡ stands chains.old r i }
    ensures room { OnOk result ((row : RowKey) → IsSome (value_in writes.now row) → 0 < room_of chains.new row) }
    ensures numbers { (n : ℕ) (r : RowKey) → row_at chains.old n ≡ Some r → row_at chains.new n ≡ Some r }
    ensures once { IsOnceEach chains.old → IsOnceEach chains.new }
{
    found.clear();
    for place in 0..writes.len() {
        let (row, _) = writes.row(place);
        let number = chains.reserve(alloc, row, numbers)?;
        found.push(number)?;
    }
    Ok(())
}

// Takes out the index's entries of all rows that aren't written.
fn take_out_others(chains: &mut Chains, list: &mut WrittenRows, index: u32, writes: &WriteSet)
    requires { AreListed chains.old list.old.numbers index }
    ensures listed { AreListed chains.new list.new.numbers index }
    ensures others { (r : RowKey) (i : ℕ) → i ≢ index → stands chains.new r i ≡ stands chains.old r i }
    ensures written { (r : RowKey) → IsSome (value_in writes.now r) → stands chains.new r index ≡ stands chains.old r index }
    ensures unwritten { (r : RowKey) → value_in writes.now r ≡ None → stands chains.new r index ≡ None }
    ensures rows { rows_of chains.new ≡ rows_of chains.old }
    ensures room { (r : RowKey) → room_of chains.old r ≤ room_of chains.new r }
    ensures list { list.old.room ≤ list.new.room }
{
    let mut place = 0;
    while place < list.len() {
        let number = list.at(place);
        if writes.get(chains.row(number)).is_some() {
            place += 1;
        } else {
            chains.take_out(number, index);
            list.take_out(place);
        }
    }
}

// Records the write set of the version. The chain of a row is looked for at the number that stands at the row's place first. Returns
// whether a row was written that had no entry of its index.
fn put_all(
    chains: &mut Chains,
    list: &mut WrittenRows,
    version: Version,
    writes: &WriteSet,
    numbers: &[usize],
) -> bool
    requires listed { AreListed chains.old list.old.numbers version.index }
    requires room { (row : RowKey) → IsSome (value_in writes.now row) → 0 < room_of chains.old row }
    requires list { length writes.now ≤ list.old.room }
    ensures listed { AreListed chains.new list.new.numbers version.index }
    ensures others { (r : RowKey) (i : ℕ) → (i ≢ version.index) ⊎ (value_in writes.now r ≡ None) → stands chains.new r i ≡ stands chains.old r i }
    ensures written { (r : RowKey) (value : RowVal) → value_in writes.now r ≡ Some value → stands chains.new r version.index ≡ Some (value_at version.incarnation value) }
    ensures new { IsTrue result ↔ ((r : RowKey) × IsSome (value_in writes.now r) × (stands chains.old r version.index ≡ None)) }
    ensures rows { rows_of chains.new ≡ rows_of chains.old }
    ensures once { IsOnceEach writes.now }
{
    let mut is_new = false;
    for place in 0..writes.len() {
        let (row, value) = writes.row(place);
        let rest = numbers.get(place..).unwrap_or(&[]);
        let (number, had_none) = chains.put(row, rest, version, value);
        if had_none {
            list.push(number);
            is_new = true;
        }
    }
    is_new
}

// Makes ESTIMATEs of all entries of the index.
fn estimate_all(chains: &mut Chains, list: &WrittenRows, index: u32)
    requires { AreListed chains.old list.now.numbers index }
    ensures own { (r : RowKey) → stands chains.new r index ≡ option_map estimate_of (stands chains.old r index) }
    ensures others { (r : RowKey) (i : ℕ) → i ≢ index → stands chains.new r i ≡ stands chains.old r i }
    ensures rows { rows_of chains.new ≡ rows_of chains.old }
{
    for place in 0..list.len() {
        chains.to_estimate(list.at(place), index);
    }
}
