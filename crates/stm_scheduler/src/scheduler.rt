ghost use Rattle.std.specs.Prelude.{◌≡◌, ◌+◌, ◌<◌, ◌≤◌, ◌^◌, ◌↔◌, length, min, if◌then◌else◌, nat_lt, not, ◌&&◌, IsTrue, IsFalse, IfOk};
ghost use Rattle.stm_scheduler.specs.Board.{mark, floor, finished, lowered, aborted_as, passed, aborted, committed_more, IsRunning, IsOpen, IsFresh, IsWaitedFor};
ghost use Rattle.stm_scheduler.specs.Cursors.{Claims, open_schedule, IsLoweredToWaiting};
ghost use Rattle.stm_scheduler.specs.declared.status.Status.TheVariants.{Ready, Waiting};

use crate::choice::choose;
use crate::message_progress::MessageProgress;
use crate::status::Status;
use crate::task::Task;
use crate::waiters::wake;
use std::alloc::{AllocError, Global};
use std::marker::Model;
use stm_memory::Version;

/// The scheduler (Block-STM): where each message stands, which is handed out next, and when it commits. It holds no
/// entry and no log, so that a commit reads no row.
///
/// Suspended messages are listed: the first by the message that they wait for, the next by each of them. A message waits for one other at
/// most, so both lists have a place for each message, and no call takes memory.
#[derive(Drop)]
pub struct Scheduler {
    marks: Vec<MessageProgress>,
    // The first message that waits for each message.
    firsts: Vec<Option<u32>>,
    // The next message that waits for the same one.
    nexts: Vec<Option<u32>>,
    floors: Vec<u64>,
    epoch: u64,
    committed: u32,
    // The greatest floor up to the committed count.
    highest: u64,
    execution: u32,
    validation: u32,
}

impl Model for Scheduler {
    ghost use Rattle.stm_scheduler.specs.Board.{board_code};
    ghost use Rattle.stm_scheduler.specs.Cursors.{Schedule, schedule_code};
    ghost use Rattle.stm_scheduler.specs.Sound.{IsSound, IsHighest};
    ghost use Rattle.stm_scheduler.specs.contracts.message_progress.MessageProgress.{the_row as mark_row};

    ghost Value = { Schedule };

    ghost coded = { schedule_code (board_code mark_row.coded) };

    ghost view = { λ s. record { board = record { marks = s.marks.items; floors = s.floors.items; epoch = s.epoch; committed = s.committed }; execution = s.execution; validation = s.validation } };

    ghost invariant = { λ s. IsSound (record { board = record { marks = s.marks.items; floors = s.floors.items; epoch = s.epoch; committed = s.committed }; execution = s.execution; validation = s.validation }) s.firsts.items s.nexts.items × IsHighest (record { marks = s.marks.items; floors = s.floors.items; epoch = s.epoch; committed = s.committed }) s.highest };
}

impl Scheduler {
    /// A scheduler of so many messages, at most 65,536: each is ready, the epoch is 1, and all floors are 0. It fails only where memory
    /// runs out.
    pub fn new(alloc: Global, count: usize) -> Result<Scheduler, AllocError>
        requires { count ≤ 65536 }
        ensures { IfOk result (λ s. s ≡ open_schedule count) }
    {
        let fresh = MessageProgress {
            status: Status::Ready,
            incarnation: 0,
            stamp: None,
        };
        Ok(Scheduler {
            marks: Vec::from_elem(alloc, fresh, count)?,
            firsts: Vec::from_elem(alloc, None, count)?,
            nexts: Vec::from_elem(alloc, None, count)?,
            floors: Vec::from_elem(alloc, 0, count + 1)?,
            epoch: 1,
            committed: 0,
            highest: 0,
            execution: 0,
            validation: 0,
        })
    }

    /// What is to be done next, by the cursors; a message that is to be executed is running from now on.
    pub fn next_task(&mut self) -> Task
        ensures { Claims self.old result self.new }
    {
        if self.committed as usize == self.marks.len() {
            return Task::Done;
        }
        let choice = choose(&self.marks, self.committed, self.execution, self.validation);
        match choice.task {
            Task::Execute(version) => {
                self.marks[version.index as usize].status = Status::Running;
                self.execution = choice.execution;
                self.validation = choice.validation;
                Task::Execute(version)
            }
            Task::Validate(version) => {
                self.execution = choice.execution;
                self.validation = choice.validation;
                Task::Validate(version)
            }
            _ => Task::Idle,
        }
    }

    /// The version met an ESTIMATE of the message at `on`, and is aborted. Its message is suspended until that one is executed, or is
    /// ready again where that one is executed or isn't before it.
    pub fn block(&mut self, version: Version, on: u32)
        requires running { IsRunning self.old.board version }
        requires left { version.incarnation + 1 < 2 ^ 32 }
        ensures waits { IsWaitedFor self.old.board version.index on → self.new ≡ record self.old { board = aborted_as self.old.board version.index (Waiting on) } }
        ensures ready { ¬ IsWaitedFor self.old.board version.index on → self.new ≡ record self.old { board = aborted_as self.old.board version.index Ready; execution = min self.old.execution version.index } }
    {
        let index = version.index as usize;
        let waits = on < version.index && self.marks[on as usize].status != Status::Executed;
        let mark = &mut self.marks[index];
        mark.incarnation += 1;
        mark.stamp = None;
        if waits {
            mark.status = Status::Waiting(on);
            self.nexts[index] = self.firsts[on as usize];
            self.firsts[on as usize] = Some(version.index);
        } else {
            mark.status = Status::Ready;
            self.execution = self.execution.min(version.index);
        }
    }

    /// The version finished: those that wait for its message are ready. With a new location, the messages after it have
    /// to be validated again. Returns whether it is handed out to be validated: there is no new location, and the validation
    /// cursor is past it.
    pub fn finished(&mut self, version: Version, new: bool) -> bool
        requires running { IsRunning self.old.board version }
        requires epoch { IsTrue new → self.old.board.epoch + 1 < 2 ^ 64 }
        ensures board { self.new.board ≡ (if new then lowered (finished self.old.board version.index) version.index else finished self.old.board version.index) }
        ensures execution { IsLoweredToWaiting self.old.board.marks version.index self.old.execution self.new.execution }
        ensures validation { self.new.validation ≡ (if new then min self.old.validation version.index else self.old.validation) }
        ensures handed_out { result ≡ (not new && nat_lt version.index self.old.validation) }
    {
        let index = version.index as usize;
        let mark = &mut self.marks[index];
        mark.status = Status::Executed;
        mark.stamp = None;
        let first = self.firsts[index];
        self.firsts[index] = None;
        self.execution = wake(
            &mut self.marks,
            &self.nexts,
            first,
            version.index,
            self.execution,
        );
        if !new {
            return version.index < self.validation;
        }
        self.epoch += 1;
        self.floors[index + 1] = self.epoch;
        self.validation = self.validation.min(version.index);
        false
    }

    /// The version failed its validation, and its execution is aborted: its message is ready again, and the messages after
    /// it have to be validated again.
    pub fn abort(&mut self, version: Version)
        requires executed { IsOpen self.old.board version }
        requires left { version.incarnation + 1 < 2 ^ 32 }
        requires epoch { self.old.board.epoch + 1 < 2 ^ 64 }
        ensures { self.new ≡ record { board = aborted self.old.board version.index; execution = min self.old.execution version.index; validation = min self.old.validation (version.index + 1) } }
    {
        let index = version.index as usize;
        let mark = &mut self.marks[index];
        mark.status = Status::Ready;
        mark.incarnation += 1;
        mark.stamp = None;
        self.epoch += 1;
        self.floors[index + 1] = self.epoch;
        self.execution = self.execution.min(version.index);
        self.validation = self.validation.min(version.index + 1);
    }

    /// The version passed a validation that began at this epoch.
    pub fn passed(&mut self, version: Version, began: u64)
        requires { IsOpen self.old.board version }
        ensures { self.new ≡ record self.old { board = passed self.old.board version.index began } }
    {
        let mark = &mut self.marks[version.index as usize];
        let stamp = match mark.stamp {
            None => began,
            Some(stamp) => stamp.max(began),
        };
        mark.stamp = Some(stamp);
    }

    /// Commits the next message in the order of the batch, if it is executed and has a stamp that no floor up to it is
    /// above. Returns whether it did.
    pub fn commit(&mut self) -> bool
        ensures fresh { IsTrue result → IsFresh self.old.board self.old.board.committed × (self.new ≡ record self.old { board = committed_more self.old.board }) }
        ensures otherwise { IsFalse result → ¬ IsFresh self.old.board self.old.board.committed × (self.new ≡ self.old) }
    {
        let index = self.committed as usize;
        if index >= self.marks.len() {
            return false;
        }
        let mark = self.marks[index];
        if mark.status != Status::Executed {
            return false;
        }
        match mark.stamp {
            None => false,
            Some(stamp) => {
                if stamp < self.highest {
                    return false;
                }
                self.committed += 1;
                self.highest = self.highest.max(self.floors[index + 1]);
                true
            }
        }
    }

    /// The epoch: it rises whenever messages have to be validated again.
    pub fn epoch(&self) -> u64
        ensures { result ≡ self.now.board.epoch }
    {
        self.epoch
    }

    /// The floor at this index, from 0 to the number of messages: the epoch from which on the messages from here on have
    /// to be validated.
    pub fn floor(&self, index: u32) -> u64
        requires { index ≤ length self.now.board.marks }
        ensures { result ≡ floor self.now.board index }
    {
        self.floors[index as usize]
    }

    /// The message's stamp: the greatest epoch at which a validation that its version passed began.
    pub fn stamp(&self, index: u32) -> Option<u64>
        requires { index < length self.now.board.marks }
        ensures { result ≡ (mark self.now.board index).stamp }
    {
        self.marks[index as usize].stamp
    }

    /// What is done with the message.
    pub fn status(&self, index: u32) -> Status
        requires { index < length self.now.board.marks }
        ensures { result ≡ (mark self.now.board index).status }
    {
        self.marks[index as usize].status
    }

    /// The message's present incarnation.
    pub fn incarnation(&self, index: u32) -> u32
        requires { index < length self.now.board.marks }
        ensures { result ≡ (mark self.now.board index).incarnation }
    {
        self.marks[index as usize].incarnation
    }

    /// How many messages are committed.
    pub fn committed(&self) -> u32
        ensures count { result ≡ self.now.board.committed }
        ensures within { result ≤ length self.now.board.marks }
    {
        self.committed
    }

    /// How many messages there are.
    pub fn len(&self) -> usize
        ensures { result ≡ length self.now.board.marks }
    {
        self.marks.len()
    }

    /// Whether there is no message.
    pub fn is_empty(&self) -> bool
        ensures { IsTrue result ↔ (length self.now.board.marks ≡ 0) }
    {
        self.marks.is_empty()
    }
}
