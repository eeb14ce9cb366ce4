ghost use Rattle.std.specs.Prelude.{◌≡◌, ◌↔◌, ◌<◌, ◌++◌, [], ◌∷◌, Some, None, length, slice_get, IsTrue, IfSome, OnOk, OnErr};
ghost use Rattle.std.specs.Option.{option_copied};
ghost use Rattle.issuer_words.specs.Words.{IsOfKind};
ghost use Rattle.issuer_view.specs.Words.{value_in};
ghost use Rattle.stm_core_laws.specs.Words.{AreLogged, empty_slot, logged_in};
ghost use Rattle.stm_core.specs.Origin.{IsFirstOf};

use crate::log::{FEW, Log};
use issuer_rows::{ReplyBody, RowKey, RowVal};
use issuer_view::ReadSet;
use std::alloc::{AllocError, Global};
use std::marker::Model;
use stm_memory::Version;

/// What is kept of one message: the reply of its execution, and what its incarnation was answered.
#[derive(Drop)]
pub(crate) struct ExecutionSlot {
    reply: Option<ReplyBody>,
    log: Log,
}

impl Model for ExecutionSlot {
    ghost use Rattle.stm_core_laws.specs.State.{ExecutionSlot};

    ghost Value = { ExecutionSlot };

    ghost view = { λ s. record { reply = s.reply; log = s.log } };
}

impl ExecutionSlot {
    /// Nothing is kept.
    pub(crate) fn new(alloc: Global) -> ExecutionSlot
        ensures { result ≡ empty_slot }
    {
        ExecutionSlot {
            reply: None,
            log: Log::new(alloc),
        }
    }

    /// The reply of the execution that finished.
    pub(crate) fn reply(&self) -> Option<ReplyBody>
        ensures { result ≡ self.now.reply }
    {
        self.reply
    }

    /// How many rows the incarnation asked for.
    pub(crate) fn reads(&self) -> usize
        ensures { result ≡ length self.now.log }
    {
        self.log.len()
    }

    /// What the incarnation was answered for the row, if it asked for it.
    pub(crate) fn logged(&self, row: &RowKey) -> Option<&Option<RowVal>>
        ensures value { option_copied result ≡ logged_in self.now.log row.now }
        ensures kind { IfSome result (λ value. IfSome value.now (IsOfKind row.now)) }
    {
        self.log.get(row)
    }

    /// The row that it asked for at this place, which execution its answer came from, and a number at which the multi-version memory may
    /// find the row.
    pub(crate) fn origin_at(&self, place: usize) -> (RowKey, Option<Version>, usize)
        requires { place < length self.now.log }
        ensures { IsFirstOf (slice_get self.now.log place) result }
    {
        self.log.at(place)
    }

    /// The numbers of the rows that it asked for first.
    pub(crate) fn numbers(&self) -> [usize; FEW] {
        self.log.numbers()
    }

    /// Whether each of these reads was answered so.
    pub(crate) fn has_logged(&self, reads: &ReadSet) -> bool
        ensures { IsTrue result ↔ AreLogged self.now.log reads.now }
    {
        self.log.has_logged(reads)
    }

    /// Logs one more answer and which execution it came from; and the number at which the multi-version memory found the row.
    pub(crate) fn log(
        &mut self,
        row: &RowKey,
        origin: Option<Version>,
        value: &Option<RowVal>,
        number: usize,
    ) -> Result<(), AllocError>
        requires absent { value_in self.old.log row.now ≡ None }
        requires kind { IfSome value.now (IsOfKind row.now) }
        ensures ok { OnOk result (self.new ≡ record (self.old) { log = self.old.log ++ (row.now, record { origin = origin; value = value.now }) ∷ [] }) }
        ensures err { OnErr result (self.new ≡ self.old) }
    {
        self.log.push(row, origin, value, number)
    }

    /// Keeps the reply of the execution that finished.
    pub(crate) fn finish(&mut self, reply: &ReplyBody)
        ensures { self.new ≡ record (self.old) { reply = Some reply.now } }
    {
        self.reply = Some(*reply);
    }

    /// The incarnation is aborted: nothing is kept of it.
    pub(crate) fn clear(&mut self)
        ensures { self.new ≡ empty_slot }
    {
        self.reply = None;
        self.log.clear();
    }
}
