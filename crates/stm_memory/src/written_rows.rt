ghost use Rattle.std.specs.Prelude.{◌≡◌, ◌<◌, ◌≤◌, ◌+◌, [], ◌∷◌, ◌++◌, length, slice_get, Some, OnOk};
ghost use Rattle.std.specs.List.{remove};

use std::alloc::{AllocError, Global};
use std::marker::Model;

/// The rows that one message has entries of, by the numbers of their chains.
#[derive(Drop)]
pub(crate) struct WrittenRows {
    numbers: Vec<usize>,
}

impl Model for WrittenRows {
    ghost use Rattle.std.specs.Prelude.{◌-◌};
    ghost use Rattle.std.specs.Vec.{vec_len, vec_capacity};
    ghost use Rattle.stm_memory.specs.Memory.{WrittenRows};

    ghost Value = { WrittenRows };

    ghost view = { λ l. record { numbers = l.numbers.items; room = vec_capacity l.numbers - vec_len l.numbers } };
}

impl WrittenRows {
    /// No rows.
    pub(crate) fn new(alloc: Global) -> WrittenRows
        ensures { result.numbers ≡ [] }
    {
        WrittenRows {
            numbers: Vec::new(alloc),
        }
    }

    /// How many rows are listed.
    pub(crate) fn len(&self) -> usize
        ensures { result ≡ length self.now.numbers }
    {
        self.numbers.len()
    }

    /// The number at this place.
    pub(crate) fn at(&self, place: usize) -> usize
        requires { place < length self.now.numbers }
        ensures { slice_get self.now.numbers place ≡ Some result }
    {
        self.numbers[place]
    }

    /// Makes room for so many more.
    pub(crate) fn reserve(&mut self, count: usize) -> Result<(), AllocError>
        ensures numbers { self.new.numbers ≡ self.old.numbers }
        ensures room { OnOk result (count ≤ self.new.room) }
        ensures more { self.old.room ≤ self.new.room }
    {
        self.numbers.reserve(count)
    }

    /// Lists one more row.
    pub(crate) fn push(&mut self, number: usize)
        requires { 0 < self.old.room }
        ensures numbers { self.new.numbers ≡ self.old.numbers ++ number ∷ [] }
        ensures room { self.old.room ≤ self.new.room + 1 }
    {
        self.numbers.push_reserved(number);
    }

    /// Takes out the number at this place.
    pub(crate) fn take_out(&mut self, place: usize)
        requires { place < length self.old.numbers }
        ensures numbers { self.new.numbers ≡ remove self.old.numbers place }
        ensures room { self.old.room ≤ self.new.room }
    {
        self.numbers.remove(place);
    }
}
