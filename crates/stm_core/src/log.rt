ghost use Rattle.std.specs.Prelude.{◌≡◌, ◌↔◌, ◌<◌, ◌++◌, [], ◌∷◌, Some, None, length, slice_get, vec_capacity, IsTrue, IfSome, OnOk, OnErr};
ghost use Rattle.std.specs.Option.{option_copied, option_map};
ghost use Rattle.issuer_words.specs.Words.{IsOfKind};
ghost use Rattle.issuer_view.specs.Words.{value_in};
ghost use Rattle.stm_core_laws.specs.Log.{logged_in, AreLogged};
ghost use Rattle.stm_core.specs.Origin.{IsFirstOf};

use crate::read::Read;
use indexmap::IndexMap;
use issuer_rows::{RowKey, RowVal};
use issuer_view::ReadSet;
use std::alloc::{AllocError, Global};
use std::marker::Model;
use stm_core_laws::Logged;
use stm_memory::Version;

/// How many rows are found by comparing keys, without hashing.
pub(crate) const FEW: usize = 8;

// How many rows are asked for where a request is approved.
const USUAL: usize = 5;

/// What an incarnation was answered, each row once, in the order of asking (Block-STM: read set).
///
/// A decision mostly asks for a handful of rows. Comparing these keys costs less than hashing one, so a map has only the rows
/// that come after them.
#[derive(Drop)]
pub(crate) struct Log {
    few: Vec<Read>,
    more: IndexMap<RowKey, Logged>,
}

impl Model for Log {
    ghost use Rattle.stm_core_laws.specs.State.{Log};
    ghost use Rattle.stm_core.specs.Origin.{log_of, AreOfKind};

    ghost Value = { Log };

    ghost view = { λ l. log_of l.few.items l.more.entries };

    ghost invariant = { λ l. AreOfKind (log_of l.few.items l.more.entries) };
}

impl Log {
    /// Nothing was asked yet.
    pub(crate) fn new(alloc: Global) -> Log
        ensures { result ≡ [] }
    {
        Log {
            few: Vec::new(alloc),
            more: IndexMap::new(alloc),
        }
    }

    /// Takes all out, and keeps the memory.
    pub(crate) fn clear(&mut self)
        ensures { self.new ≡ [] }
    {
        self.few.clear();
        self.more.clear();
    }

    /// How many rows were asked for.
    pub(crate) fn len(&self) -> usize
        ensures { result ≡ length self.now }
    {
        self.few.len() + self.more.len()
    }

    // What was logged of the row, if it was asked for.
    fn find(&self, row: &RowKey) -> Option<&Logged>
        ensures value { option_copied result ≡ value_in self.now row.now }
        ensures kind { IfSome result (λ logged. IfSome logged.now.value (IsOfKind row.now)) }
    {
        for place in 0..self.few.len() {
            let read = &self.few[place];
            if *row == read.row {
                return Some(&read.logged);
            }
        }
        if self.more.is_empty() {
            return None;
        }
        self.more.get(row)
    }

    /// What was answered for the row, if it was asked for.
    pub(crate) fn get(&self, row: &RowKey) -> Option<&Option<RowVal>>
        ensures value { option_copied result ≡ logged_in self.now row.now }
        ensures kind { IfSome result (λ value. IfSome value.now (IsOfKind row.now)) }
    {
        match self.find(row) {
            Some(logged) => Some(&logged.value),
            None => None,
        }
    }

    /// The row that was asked for at this place, which execution its answer came from, and a number at which the multi-version memory may
    /// find the row.
    pub(crate) fn at(&self, place: usize) -> (RowKey, Option<Version>, usize)
        requires { place < length self.now }
        ensures { IsFirstOf (slice_get self.now place) result }
    {
        if place < self.few.len() {
            let read = &self.few[place];
            return (read.row, read.logged.origin, read.number);
        }
        match self.more.get_index(place - self.few.len()) {
            Some((row, logged)) => (*row, logged.origin, usize::MAX),
            None => unreachable!(),
        }
    }

    /// The numbers of the first rows, in their order; behind them stands what is no row's number.
    pub(crate) fn numbers(&self) -> [usize; FEW] {
        let mut numbers = [usize::MAX; FEW];
        for place in 0..FEW {
            if let Some(read) = self.few.get(place) {
                numbers[place] = read.number;
            }
        }
        numbers
    }

    /// Logs one more answer and which execution it came from; and the number at which the multi-version memory found the row.
    pub(crate) fn push(
        &mut self,
        row: &RowKey,
        origin: Option<Version>,
        value: &Option<RowVal>,
        number: usize,
    ) -> Result<(), AllocError>
        requires absent { value_in self.old row.now ≡ None }
        requires kind { IfSome value.now (IsOfKind row.now) }
        ensures ok { OnOk result (self.new ≡ self.old ++ (row.now, record { origin = origin; value = value.now }) ∷ []) }
        ensures err { OnErr result (self.new ≡ self.old) }
    {
        if self.more.is_empty() && self.few.len() < FEW {
            push_few(&mut self.few, row, origin, value, number)
        } else {
            push_more(&mut self.more, row, origin, value)
        }
    }

    /// Whether each of these reads was answered so.
    pub(crate) fn has_logged(&self, reads: &ReadSet) -> bool
        ensures { IsTrue result ↔ AreLogged self.now reads.now }
    {
        for index in 0..reads.len() {
            let (row, value) = reads.row(index);
            if !is_answer(self.find(row), value) {
                return false;
            }
        }
        true
    }
}

// Makes room in a list of first reads, and appends one.
fn push_few(
    few: &mut Vec<Read>,
    row: &RowKey,
    origin: Option<Version>,
    value: &Option<RowVal>,
    number: usize,
) -> Result<(), AllocError>
    ensures ok { OnOk result (few.new.items ≡ few.old.items ++ (record { row = row.now; logged = record { origin = origin; value = value.now }; number = number }) ∷ []) }
    ensures err { OnErr result (few.new.items ≡ few.old.items) }
{
    if few.is_empty() {
        few.reserve_exact(USUAL)?;
    } else {
        few.reserve(1)?;
    }
    push_read(few, row, origin, value, number);
    Ok(())
}

// Appends a read that is not there yet behind the first ones.
fn push_more(
    more: &mut IndexMap<RowKey, Logged>,
    row: &RowKey,
    origin: Option<Version>,
    value: &Option<RowVal>,
) -> Result<(), AllocError>
    requires { value_in more.old.entries row.now ≡ None }
    ensures ok { OnOk result (more.new.entries ≡ more.old.entries ++ (row.now, record { origin = origin; value = value.now }) ∷ []) }
    ensures err { OnErr result (more.new.entries ≡ more.old.entries) }
{
    let logged = Logged {
        origin,
        value: *value,
    };
    match more.insert(*row, logged) {
        Ok(_) => Ok(()),
        Err(_) => Err(AllocError),
    }
}

// Appends a read to a list that has room for it. It is a call of its own so that the value is copied once.
#[inline(never)]
fn push_read(
    few: &mut Vec<Read>,
    row: &RowKey,
    origin: Option<Version>,
    value: &Option<RowVal>,
    number: usize,
)
    requires { length few.old.items < vec_capacity few.old }
    ensures { few.new.items ≡ few.old.items ++ (record { row = row.now; logged = record { origin = origin; value = value.now }; number = number }) ∷ [] }
{
    few.push_reserved(Read {
        row: *row,
        logged: Logged {
            origin,
            value: *value,
        },
        number,
    });
}

// Whether this was logged, with this value.
fn is_answer(logged: Option<&Logged>, value: &Option<RowVal>) -> bool
    ensures { IsTrue result ↔ (option_map (λ l. l.value) (option_copied logged.entry) ≡ Some value.now) }
{
    match logged {
        Some(logged) => are_same(&logged.value, value),
        None => false,
    }
}

// Whether both are the same value, or both are none.
fn are_same(mine: &Option<RowVal>, theirs: &Option<RowVal>) -> bool
    ensures { IsTrue result ↔ (mine.now ≡ theirs.now) }
{
    match (mine, theirs) {
        (Some(mine), Some(theirs)) => mine.is_same(theirs),
        (None, None) => true,
        _ => false,
    }
}
