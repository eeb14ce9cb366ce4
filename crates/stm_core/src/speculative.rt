ghost use Rattle.std.specs.Prelude.{◌≡◌, ◌≢◌, ◌<◌, ◌≤◌, ◌↔◌, Some, None, length, take, IsTrue, IfOk, IfSome, OnOk};
ghost use Rattle.issuer_words.specs.Words.{IsOfKind, replies_to, rows_after};
ghost use Rattle.stm_scheduler.specs.Board.{floor, mark, IsRunning};
ghost use Rattle.stm_core_laws.specs.Play.{PlayStep, opening_play};
ghost use Rattle.stm_core_laws.specs.Run.{IsReached, Claim, Read, Block, Finish, Begin, ValidateOne, End, Commit};
ghost use Rattle.stm_core_laws.specs.Step.{IsGotOfKind, logged_by};
ghost use Rattle.stm_core.specs.Unread.{got_of};

use crate::execution_slot::ExecutionSlot;
use crate::frames::is_at;
use crate::logging::{puts_new_location, resolves_as, seen_into};
use crate::slots::{fresh_slots, replies_in};
use crate::standing::{is_open, is_running};
use crate::unread::Unread;
use crate::validations::{after_read, is_at_end, no_validations};
use issuer_fold::{Prefix, are_same_frames};
use issuer_rows::{Book, Frame, RowKey, RowVal};
use issuer_view::Execution;
use std::alloc::{AllocError, Global};
use std::marker::Model;
use stm_core_laws::{CoreFault, Got, Limits, Seat, Validation};
use stm_memory::{MvMemory, Version};
use stm_scheduler::{Scheduler, Status, Task};

/// The speculative core (Block-STM). Messages are executed and validated in any order, and committed in that of the batch. Whatever
/// calls are made, in any order: its state is a state of a run.
#[derive(Drop)]
pub struct Core {
    opening: Book,
    frames: Vec<Frame>,
    memory: MvMemory,
    scheduler: Scheduler,
    slots: Vec<ExecutionSlot>,
    limits: Limits,
    // The validation that goes on at each seat.
    validations: Vec<Option<Validation>>,
}

impl Model for Core {
    ghost use Rattle.std.specs.FinMap as finite;
    ghost use Rattle.stm_memory.specs.Memory.{held_code, place_code};
    ghost use Rattle.issuer_rows.specs.contracts.frame.Frame.{the_row as frame_row};
    ghost use Rattle.issuer_rows.specs.contracts.row_key.RowKey.{the_row as key_row};
    ghost use Rattle.issuer_rows.specs.contracts.row_val.RowVal.{the_row as val_row};
    ghost use Rattle.stm_scheduler.specs.Board.{board_code};
    ghost use Rattle.stm_scheduler.specs.contracts.message_progress.MessageProgress.{the_row as mark_row};
    ghost use Rattle.stm_core_laws.specs.contracts.validation.Validation.{the_row as check_row};
    ghost use Rattle.stm_core_laws.specs.contracts.limits.Limits.{the_row as limits_row};
    ghost use Rattle.stm_core_laws.specs.Play.{Play, play_code};
    ghost use Rattle.stm_core_laws.specs.State.{state_code};
    ghost use Rattle.stm_core.specs.Sound.{IsSoundCore};
    ghost use Rattle.stm_core.specs.contracts.execution_slot.ExecutionSlot.{the_row as slot_row};

    ghost Value = { Play };

    ghost coded = { play_code (state_code (finite.code key_row.coded val_row.coded) frame_row.coded (finite.code (place_code key_row.coded) (held_code val_row.coded)) (board_code mark_row.coded) slot_row.coded limits_row.coded check_row.coded) };

    ghost view = { λ c. record { state = record { opening = c.opening; frames = c.frames.items; entries = c.memory.entries; board = c.scheduler.board; slots = c.slots.items; limits = c.limits; validations = c.validations.items }; execution = c.scheduler.execution; validation = c.scheduler.validation } };

    ghost invariant = { λ c. IsSoundCore (record { opening = c.opening; frames = c.frames.items; entries = c.memory.entries; board = c.scheduler.board; slots = c.slots.items; limits = c.limits; validations = c.validations.items }) };
}

impl Core {
    /// A core in its opening state, over copies of the book and of the frames, at most 65,536, without limits but those of the numbers.
    /// It fails only where memory runs out.
    pub fn new(alloc: Global, book: &Book, frames: &[Frame]) -> Result<Core, AllocError>
        requires { length frames.now ≤ 65536 }
        ensures { IfOk result (λ core. core ≡ opening_play book.now frames.now (record { incarnation = 4294967295; epoch = 18446744073709551615 })) }
    {
        let limits = Limits {
            incarnation: u32::MAX,
            epoch: u64::MAX,
        };
        Core::with_limits(alloc, book, frames, limits)
    }

    /// The same with these limits; an epoch of 0 counts as 1.
    pub fn with_limits(
        alloc: Global,
        book: &Book,
        frames: &[Frame],
        limits: Limits,
    ) -> Result<Core, AllocError>
        requires { length frames.now ≤ 65536 }
        ensures { IfOk result (λ core. core ≡ opening_play book.now frames.now limits) }
    {
        let limits = Limits {
            incarnation: limits.incarnation,
            epoch: limits.epoch.max(1),
        };
        let validations = no_validations(alloc)?;
        let copies = frames.to_vec(alloc)?;
        let scheduler = Scheduler::new(alloc, frames.len())?;
        let slots = fresh_slots(alloc, frames)?;
        let opening = book.copy()?;
        Ok(Core {
            opening,
            frames: copies,
            memory: MvMemory::new(alloc),
            scheduler,
            slots,
            limits,
            validations,
        })
    }

    /// What is to be done next, by the cursors; a message that is to be executed is running from now on.
    pub fn next_task(&mut self) -> Task
        ensures step { PlayStep self.old (Claim result) self.new }
    {
        self.scheduler.next_task()
    }

    /// What the version sees of the row: as it was logged, else as it resolves now, which is then logged unless it is an ESTIMATE. It is
    /// refused to a version that isn't running (`NotRunning`), and where there is no memory for the log (`OutOfMemory`).
    pub fn read(&mut self, version: Version, row: &RowKey) -> Result<Got, CoreFault>
        ensures step { PlayStep self.old (Read version row.now result) self.new }
        ensures kind { IfOk result (IsGotOfKind row.now) }
    {
        let mut value = None;
        match self.read_into(version, row, &mut value) {
            Ok(()) => Ok(Got::Row(value)),
            Err(Unread::Estimate(at)) => Ok(Got::Estimate(at)),
            Err(Unread::Refused(fault)) => Err(fault),
        }
    }

    /// The same, written to a place of the caller's, so that a row isn't copied from hand to hand.
    pub fn read_into(
        &mut self,
        version: Version,
        row: &RowKey,
        value: &mut Option<RowVal>,
    ) -> Result<(), Unread>
        ensures step { PlayStep self.old (Read version row.now (got_of result value.new)) self.new }
        ensures kind { OnOk result (IfSome value.new (IsOfKind row.now)) }
    {
        if !is_running(&self.scheduler, version) {
            return Err(Unread::Refused(CoreFault::NotRunning));
        }
        let slot = &self.slots[version.index as usize];
        if let Some(logged) = slot.logged(row) {
            *value = *logged;
            return Ok(());
        }
        let (link, number) = self.memory.look(row, version.index);
        match seen_into(&self.opening, row, link, value) {
            Ok(origin) => {
                let slot = &mut self.slots[version.index as usize];
                slot.log(row, origin, value, number)?;
                Ok(())
            }
            Err(at) => Err(Unread::Estimate(at)),
        }
    }

    /// Aborts the version, which met an ESTIMATE of the message at `on`. Its message is suspended until that one is executed, or is ready
    /// again where that one is executed or isn't before it. It takes no memory. It is refused to a version that isn't running
    /// (`NotRunning`), or at the last incarnation (`Exhausted`).
    pub fn block(&mut self, version: Version, on: u32) -> Result<(), CoreFault>
        ensures step { PlayStep self.old (Block version on result) self.new }
    {
        if !is_running(&self.scheduler, version) {
            return Err(CoreFault::NotRunning);
        }
        if version.incarnation == self.limits.incarnation {
            return Err(CoreFault::Exhausted);
        }
        self.scheduler.block(version, on);
        let slot = &mut self.slots[version.index as usize];
        slot.clear();
        Ok(())
    }

    /// Keeps the execution of the version, whose rows then stand for the messages after it. Returns whether the version is handed out to
    /// be validated. It is refused to a version that isn't running (`NotRunning`), for an execution of another body or of rows that the
    /// version was not answered (`OtherReads`), at the last epoch with a new location (`Exhausted`), and where memory runs out
    /// (`OutOfMemory`).
    pub fn finish(
        &mut self,
        alloc: Global,
        version: Version,
        execution: Execution,
    ) -> Result<bool, CoreFault>
        ensures step { PlayStep self.old (Finish version execution result) self.new }
    {
        self.finish_copy(alloc, version, &execution)
    }

    /// The same of an execution that stays with the caller: what it wrote is copied into the multi-version memory.
    pub fn finish_copy(
        &mut self,
        alloc: Global,
        version: Version,
        execution: &Execution,
    ) -> Result<bool, CoreFault>
        ensures step { PlayStep self.old (Finish version execution.now result) self.new }
    {
        let frame = execution.frame();
        if !is_running(&self.scheduler, version) {
            return Err(CoreFault::NotRunning);
        }
        if !is_at(&self.frames, version.index, frame) {
            return Err(CoreFault::OtherReads);
        }
        let slot = &self.slots[version.index as usize];
        if !slot.has_logged(execution.reads()) {
            return Err(CoreFault::OtherReads);
        }
        let writes = execution.writes();
        if self.scheduler.epoch() == self.limits.epoch
            && puts_new_location(&self.memory, version.index, writes)
        {
            return Err(CoreFault::Exhausted);
        }
        let numbers = slot.numbers();
        self.memory.reserve(alloc, version.index, writes, &numbers)?;
        let is_new = self.memory.record(version, writes);
        let slot = &mut self.slots[version.index as usize];
        slot.finish(execution.reply());
        Ok(self.scheduler.finished(version, is_new))
    }

    /// Begins a validation of the version at this seat; the seat's validation before is gone. Returns whether it is at its end, which is
    /// where the version logged nothing. It takes no memory. It is refused where the version is not executed any more, or is committed
    /// (`Outdated`).
    pub fn begin_validation(&mut self, seat: Seat, version: Version) -> Result<bool, CoreFault>
        ensures step { PlayStep self.old (Begin seat version result) self.new }
    {
        if !is_open(&self.scheduler, version) {
            return Err(CoreFault::Outdated);
        }
        let slot = &self.slots[version.index as usize];
        let validation = Validation {
            version,
            began: self.scheduler.epoch(),
            place: 0,
            reads: slot.reads(),
            failed: false,
        };
        let is_ended = is_at_end(&validation);
        self.validations[seat.number() as usize] = Some(validation);
        Ok(is_ended)
    }

    /// Resolves the next logged read of the seat's validation again. Returns whether the validation is at its end then: it went over all
    /// reads, or this one resolves otherwise than it was logged. It takes no memory. It is refused where the seat has no validation that
    /// could go on (`NotRunning`), or its version is outdated (`Outdated`).
    pub fn validate_one(&mut self, seat: Seat) -> Result<bool, CoreFault>
        ensures step { PlayStep self.old (ValidateOne seat result) self.new }
    {
        let seat = seat.number() as usize;
        let Some(validation) = self.validations[seat] else {
            return Err(CoreFault::NotRunning);
        };
        if is_at_end(&validation) {
            return Err(CoreFault::NotRunning);
        }
        if !is_open(&self.scheduler, validation.version) {
            return Err(CoreFault::Outdated);
        }
        let index = validation.version.index;
        let slot = &self.slots[index as usize];
        let (row, origin, number) = slot.origin_at(validation.place);
        let stays = resolves_as(&self.memory, &row, number, index, origin);
        let next = after_read(validation, stays);
        let is_ended = is_at_end(&next);
        self.validations[seat] = Some(next);
        Ok(is_ended)
    }

    /// Closes the seat's validation, which is at its end. Returns whether the version passed it; else its execution is aborted, and its
    /// message is ready again. It takes no memory. It is refused where the seat has no validation at its end (`NotRunning`), its version
    /// is outdated (`Outdated`), or no incarnation or epoch is left for an abort (`Exhausted`).
    pub fn end_validation(&mut self, seat: Seat) -> Result<bool, CoreFault>
        ensures step { PlayStep self.old (End seat result) self.new }
    {
        let seat = seat.number() as usize;
        let Some(validation) = self.validations[seat] else {
            return Err(CoreFault::NotRunning);
        };
        if !is_at_end(&validation) {
            return Err(CoreFault::NotRunning);
        }
        if !is_open(&self.scheduler, validation.version) {
            return Err(CoreFault::Outdated);
        }
        if !validation.failed {
            self.scheduler.passed(validation.version, validation.began);
            self.validations[seat] = None;
            return Ok(true);
        }
        if validation.version.incarnation == self.limits.incarnation
            || self.scheduler.epoch() == self.limits.epoch
        {
            return Err(CoreFault::Exhausted);
        }
        let index = validation.version.index;
        self.memory.to_estimates(index);
        self.scheduler.abort(validation.version);
        let slot = &mut self.slots[index as usize];
        slot.clear();
        self.validations[seat] = None;
        Ok(false)
    }

    /// Commits the next message in the order of the batch, if it is executed and has a stamp that no floor up to it is above.
    /// No row is read. It takes no memory.
    pub fn commit(&mut self) -> bool
        ensures step { PlayStep self.old (Commit result) self.new }
    {
        self.scheduler.commit()
    }
}

impl Core {
    /// How many messages, from the first on, are committed.
    pub fn committed(&self) -> u32
        ensures value { result ≡ self.now.state.board.committed }
        ensures within { result ≤ length self.now.state.frames }
        ensures reached { IsReached self.now.state }
    {
        self.scheduler.committed()
    }

    /// The greatest incarnation and epoch that it may come to.
    pub fn limits(&self) -> Limits
        ensures { result ≡ self.now.state.limits }
    {
        self.limits
    }

    /// The epoch: it rises whenever messages have to be validated again.
    pub fn epoch(&self) -> u64
        ensures { result ≡ self.now.state.board.epoch }
    {
        self.scheduler.epoch()
    }

    /// The epoch from which on the messages from this index on have to be validated; the index is at most the number of messages.
    pub fn floor(&self, index: u32) -> u64
        requires { index ≤ length self.now.state.frames }
        ensures { result ≡ floor self.now.state.board index }
    {
        self.scheduler.floor(index)
    }

    /// The greatest epoch at which a validation that the message's version passed began.
    pub fn stamp(&self, index: u32) -> Option<u64>
        requires { index < length self.now.state.frames }
        ensures { result ≡ (mark self.now.state.board index).stamp }
    {
        self.scheduler.stamp(index)
    }

    /// What is done with the message.
    pub fn status(&self, index: u32) -> Status
        requires { index < length self.now.state.frames }
        ensures { result ≡ (mark self.now.state.board index).status }
    {
        self.scheduler.status(index)
    }

    /// The message's present incarnation.
    pub fn incarnation(&self, index: u32) -> u32
        requires { index < length self.now.state.frames }
        ensures { result ≡ (mark self.now.state.board index).incarnation }
    {
        self.scheduler.incarnation(index)
    }

    /// Whether the version was handed out, and has neither finished nor been aborted.
    pub fn is_running(&self, version: Version) -> bool
        ensures running { IsTrue result ↔ IsRunning self.now.state.board version }
        ensures within { IsTrue result → version.index < length self.now.state.frames }
    {
        let _ = self.committed();
        is_running(&self.scheduler, version)
    }

    /// What the version logged of the row; `None` if it did not, or is not the present one.
    pub fn logged(&self, version: Version, row: &RowKey) -> Option<Option<RowVal>>
        ensures present { (mark self.now.state.board version.index).incarnation ≡ version.incarnation → result ≡ logged_by self.now.state version row.now }
        ensures other { (mark self.now.state.board version.index).incarnation ≢ version.incarnation → result ≡ None }
        ensures kind { IfSome result (λ value. IfSome value (IsOfKind row.now)) }
    {
        let index = version.index as usize;
        if index >= self.slots.len()
            || self.scheduler.incarnation(version.index) != version.incarnation
        {
            return None;
        }
        let slot = &self.slots[index];
        slot.logged(row).copied()
    }

    /// Whether these are its opening book and its frames.
    pub fn opened_with(&self, book: &Book, frames: &[Frame]) -> bool
        ensures { IsTrue result ↔ ((self.now.state.opening ≡ book.now) × (self.now.state.frames ≡ frames.now)) }
    {
        self.opening.is_same(book) && are_same_frames(&self.frames, frames)
    }

    /// The committed messages: the book and the replies after them are those of deciding them one after another on the opening book. It
    /// fails only where memory runs out; the core is gone either way.
    pub fn into_prefix(self, alloc: Global) -> Result<Prefix, AllocError>
        ensures count { IfOk result (λ prefix. prefix.count ≡ self.state.board.committed) }
        ensures within { IfOk result (λ prefix. prefix.count ≤ length self.state.frames) }
        ensures book { IfOk result (λ prefix. prefix.book ≡ rows_after self.state.opening (take self.state.board.committed self.state.frames)) }
        ensures replies { IfOk result (λ prefix. prefix.replies.items ≡ replies_to self.state.opening (take self.state.board.committed self.state.frames)) }
    {
        self.prefix(alloc)
    }

    // The committed messages of a core that stays.
    fn prefix(&self, alloc: Global) -> Result<Prefix, AllocError>
        ensures count { IfOk result (λ prefix. prefix.count ≡ self.now.state.board.committed) }
        ensures within { IfOk result (λ prefix. prefix.count ≤ length self.now.state.frames) }
        ensures book { IfOk result (λ prefix. prefix.book ≡ rows_after self.now.state.opening (take self.now.state.board.committed self.now.state.frames)) }
        ensures replies { IfOk result (λ prefix. prefix.replies.items ≡ replies_to self.now.state.opening (take self.now.state.board.committed self.now.state.frames)) }
    {
        let count = self.scheduler.committed();
        let replies = replies_in(alloc, &self.slots[..count as usize])?;
        let book = self.memory.overlay(count, &self.opening)?;
        Ok(Prefix::of(alloc, count, book, replies))
    }
}
