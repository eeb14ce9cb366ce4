ghost use Rattle.std.specs.Prelude.{◌≡◌};

use crate::board::Board;
use crate::run_brand::RunBrand;
use engine_workers::Backoff;
use issuer_view::{ReadSet, WriteSet};
use split_state::{Attempt, CursorSeat, Look};
use std::alloc::{AllocError, Global};
use std::marker::PhantomData;
use std::sync::Wait;
use std::thread;
use std::time::Duration;
use stm_memory::Version;

// At how many kept executions a worker hands half of them to the board, where a worker that has none finds them.
const SPARES: usize = 16;

// In how many turns in a row that find nothing to do a worker only yields.
const AWAKE: u32 = 4;

// How many microseconds a worker sleeps at most in each such turn after those.
const NAP: u64 = 50;

/// A worker's place at a board: its seat at the board's cursors, and executions that it committed, whose memory is used again.
#[derive(Drop)]
pub(crate) struct WorkerState<B: RunBrand> {
    seat: CursorSeat,
    spares: Vec<Box<Attempt>>,
    is_first: bool,
    // How many turns in a row found nothing to do.
    idle: u32,
    // How long the worker rests, and the version that it executed by which that is determined next.
    backoff: Backoff,
    watched: Option<Version>,
    of: PhantomData<B>,
    ghost at: { seat.table_id ≡ B.table },
}

impl<B: RunBrand> WorkerState<B> {
    // The place of a worker with this seat.
    pub(crate) fn new(alloc: Global, seat: CursorSeat) -> WorkerState<B>
        requires { seat.table_id ≡ B.table }
    {
        WorkerState {
            seat,
            spares: Vec::new(alloc),
            is_first: true,
            idle: 0,
            backoff: Backoff::of(true),
            watched: None,
            of: PhantomData,
        }
    }

    // A place for another worker.
    pub(crate) fn another(&mut self, board: &Board<B>) -> WorkerState<B> {
        WorkerState {
            seat: board.cursors().another(&mut self.seat),
            spares: Vec::new(*self.spares.allocator()),
            is_first: false,
            idle: 0,
            backoff: Backoff::of(false),
            watched: None,
            of: PhantomData,
        }
    }

    // How many messages are committed, as far as the worker can see.
    pub(crate) fn done(&mut self, board: &Board<B>) -> u64 {
        board.cursors().done(&mut self.seat)
    }

    // Notes that this version was executed. One that isn't its message's first shows that executions are aborted.
    pub(crate) fn watch(&mut self, version: Version) {
        if version.incarnation > 0 {
            self.record_conflict();
        } else if !self.is_first && self.watched.is_none() {
            self.watched = Some(version);
        }
    }

    // Notes that the worker met a conflict: an ESTIMATE, or executions that are aborted.
    pub(crate) fn record_conflict(&mut self) {
        self.backoff = self.backoff.after(true);
    }

    // Notes that the worker found something to do.
    pub(crate) fn record_progress(&mut self) {
        self.idle = 0;
    }

    // Notes that the worker found nothing to do, and yields. After several such turns in a row it sleeps briefly.
    pub(crate) fn idle<R: Wait>(&mut self, rt: &R, board: &Board<B>) {
        self.idle = self.idle.saturating_add(1);
        if self.idle <= AWAKE {
            thread::yield_now();
            return;
        }
        let parked = board.parked();
        parked.sleep(rt, parked.notifications(), Duration::from_micros(NAP));
    }

    // No message is to be validated.
    pub(crate) fn end_validation(&mut self, board: &Board<B>, messages: u64) {
        board.cursors().end_validation(&mut self.seat, messages);
    }

    // Once the version that is watched can't be executed any more: whether it is the one that was committed determines how long the
    // worker rests.
    pub(crate) fn look_back<R: Wait>(&mut self, rt: &R, board: &Board<B>, done: u64) {
        let Some(Version { index, incarnation }) = self.watched else {
            return;
        };
        if done <= u64::from(index) {
            return;
        }
        self.watched = None;
        if let Some(slot) = board.slot(rt, index) {
            self.backoff = self.backoff.after(slot.incarnation() != incarnation);
        }
    }

    // Rests, where the worker's executions were aborted.
    pub(crate) fn rest<R: Wait>(&self, rt: &R, board: &Board<B>) {
        if self.backoff.rests() {
            self.backoff.rest(rt, board.parked());
        }
    }

    // Draws the message to execute next.
    pub(crate) fn draw_execute(&mut self, board: &Board<B>) -> u64 {
        board.cursors().draw_execute(&mut self.seat)
    }

    // Draws the message to validate next.
    pub(crate) fn draw_validate(&mut self, board: &Board<B>) -> u64 {
        board.cursors().draw_validate(&mut self.seat)
    }

    // Has execution go on at this message, where it is already behind it.
    pub(crate) fn lower_execute(&mut self, board: &Board<B>, index: u32) {
        board
            .cursors()
            .lower_execute(&mut self.seat, u64::from(index));
    }

    // Has validation go on at this message, where it is already behind it.
    pub(crate) fn lower_validate(&mut self, board: &Board<B>, index: u32) {
        board
            .cursors()
            .lower_validate(&mut self.seat, u64::from(index));
    }

    // Keeps an execution that is done with for its memory. Where many are kept, half of them go to the board.
    pub(crate) fn keep<R: Wait>(
        &mut self,
        rt: &R,
        board: &Board<B>,
        attempt: Box<Attempt>,
    ) -> Result<(), AllocError> {
        self.spares.push(attempt)?;
        if self.spares.len() < SPARES {
            return Ok(());
        }
        move_some(&mut self.spares, &mut board.spares(rt), SPARES / 2)
    }

    // Sets and a log for a decision, over the memory of an execution that is done with, where one is kept here or at the board.
    pub(crate) fn sets<R: Wait>(
        &mut self,
        rt: &R,
        board: &Board<B>,
    ) -> Result<(ReadSet, WriteSet, Vec<Look>), AllocError> {
        if self.spares.is_empty() {
            self.fetch(rt, board)?;
        }
        match self.spares.pop() {
            Some(spare) => Ok(sets_of(spare)),
            None => {
                let alloc = *self.spares.allocator();
                Ok((ReadSet::new(alloc), WriteSet::new(alloc), Vec::new(alloc)))
            }
        }
    }

    // Fetches executions that are done with from the board.
    fn fetch<R: Wait>(&mut self, rt: &R, board: &Board<B>) -> Result<(), AllocError> {
        move_some(&mut board.spares(rt), &mut self.spares, SPARES / 2)
    }
}

// The sets and the log of an execution that is done with.
fn sets_of(spare: Box<Attempt>) -> (ReadSet, WriteSet, Vec<Look>) {
    let Attempt { execution, log } = Box::into_inner(spare);
    let (_, reads, writes, _) = execution.into_parts();
    (reads, writes, log)
}

// Moves so many executions from one list to another, or all that there are.
fn move_some(
    from: &mut Vec<Box<Attempt>>,
    to: &mut Vec<Box<Attempt>>,
    count: usize,
) -> Result<(), AllocError> {
    for _ in 0..count {
        if let Some(attempt) = from.pop() {
            to.push(attempt)?;
        }
    }
    Ok(())
}
