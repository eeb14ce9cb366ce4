use crate::board::Board;
use crate::exit::Exit;
use crate::run_brand::RunBrand;
use crate::worker_state::WorkerState;
use engine_workers::Hook;
use issuer_rows::{Book, Frame};
use issuer_view::{Decide, Execution, Recorder, Stop};
use split_state::{AbortOutcome, Attempt, MessageSlot, ShardRows};
use std::alloc::{AllocError, Global};
use std::sync::Wait;
use std::thread;
use stm_memory::Version;

// How far behind the committed messages others are executed. Other bounds were not measured.
const AHEAD: u64 = 64;

/// What a worker works with: the board, the book in which rows are seen that no execution wrote, the bodies, the decision and the hook.
/// Whatever it does or leaves undone, the ledger's type keeps what is committed right.
#[derive(Drop)]
pub(crate) struct SplitWorker<'w, B: RunBrand, R: Wait, F: Decide, G: Hook> {
    pub(crate) rt: &'w R,
    pub(crate) alloc: Global,
    pub(crate) board: &'w Board<B>,
    pub(crate) seen: &'w Book,
    pub(crate) frames: &'w [Frame],
    pub(crate) decision: &'w F,
    pub(crate) hook: &'w G,
}

impl<B: RunBrand, R: Wait, F: Decide, G: Hook> SplitWorker<'_, B, R, F, G> {
    /// Turns from this place, until all is committed or the stop mark is set.
    pub(crate) fn work(&self, mut place: WorkerState<B>) {
        for _ in self.rt.forever() {
            if let Err(exit) = self.turn(&mut place) {
                self.exit(exit);
                break;
            }
        }
    }

    // Notifies the parked workers. A worker that has to leave before all is done sets the stop mark.
    pub(crate) fn exit(&self, exit: Exit) {
        match exit {
            Exit::Done | Exit::Stopped => {}
            Exit::OutOfMemory | Exit::Exhausted | Exit::Lost => self.board.stop(),
        }
        self.board.parked().notify_all();
    }

    // Validates a message where one is to be, or else executes one that is near.
    fn turn(&self, place: &mut WorkerState<B>) -> Result<(), Exit> {
        if self.board.is_stopped() {
            return Err(Exit::Stopped);
        }
        let done = place.done(self.board);
        if done == self.frames.len() as u64 {
            return Err(Exit::Done);
        }
        place.look_back(self.rt, self.board, done);
        place.rest(self.rt, self.board);
        if self.validate_next(place, done)? {
            place.record_progress();
            return Ok(());
        }
        match self.draw_near(place, done) {
            Some(index) => self.execute(place, index),
            None => {
                place.idle(self.rt, self.board);
                Ok(())
            }
        }
    }

    // Validates the next message that is to be, where it stands executed. Behind those that may be executed none is to be.
    pub(crate) fn validate_next(
        &self,
        place: &mut WorkerState<B>,
        done: u64,
    ) -> Result<bool, Exit> {
        let messages = self.frames.len() as u64;
        if self.board.cursors().next_to_validate() >= messages {
            return Ok(false);
        }
        let drawn = place.draw_validate(self.board);
        if drawn >= done.saturating_add(AHEAD) {
            place.end_validation(self.board, messages);
            return Ok(false);
        }
        match self.message(drawn) {
            Some(index) => self.validate(place, index),
            None => Ok(false),
        }
    }

    // Draws the next message that is to be executed, where it is near those that are committed.
    pub(crate) fn draw_near(&self, place: &mut WorkerState<B>, done: u64) -> Option<u32> {
        let next = self.board.cursors().next_to_execute();
        if next >= done.saturating_add(AHEAD) || next >= self.frames.len() as u64 {
            return None;
        }
        self.message(place.draw_execute(self.board))
    }

    // The message that was drawn, where the number names one.
    fn message(&self, drawn: u64) -> Option<u32> {
        if drawn < self.frames.len() as u64 {
            return u32::try_from(drawn).ok();
        }
        None
    }

    // Looks again for the rows that an executed message read, and aborts it where it sees others. Returns whether the message stood
    // executed.
    fn validate(&self, place: &mut WorkerState<B>, index: u32) -> Result<bool, Exit> {
        if u64::from(index) <= place.done(self.board) {
            // It is committed, or it is the next one: whoever commits it asks the book.
            return Ok(false);
        }
        let Some(mut slot) = self.board.free_slot(index) else {
            return Ok(false);
        };
        self.validate_in(place, index, &mut slot)
    }

    // The same of the message of this slot.
    fn validate_in(
        &self,
        place: &mut WorkerState<B>,
        index: u32,
        slot: &mut MessageSlot,
    ) -> Result<bool, Exit> {
        let Some(attempt) = slot.attempt() else {
            return Ok(false);
        };
        let reads = attempt.execution.reads();
        let shards = self.board.shards();
        if !shards.is_as_logged(self.rt, index, reads, &attempt.log) {
            self.abort(place, index, slot)?;
        }
        Ok(true)
    }

    // Aborts an executed message: its entries become ESTIMATEs, it is executed again, and those behind it are validated again.
    pub(crate) fn abort(
        &self,
        place: &mut WorkerState<B>,
        index: u32,
        slot: &mut MessageSlot,
    ) -> Result<(), Exit> {
        if let Some(attempt) = slot.attempt() {
            let writes = attempt.execution.writes();
            self.board.shards().to_estimates(self.rt, index, writes);
        }
        if slot.abort() == AbortOutcome::Exhausted {
            return Err(Exit::Exhausted);
        }
        place.lower_validate(self.board, index.saturating_add(1));
        place.lower_execute(self.board, index);
        Ok(())
    }

    // Executes a message where it is ready. No lock is held while it is decided.
    fn execute(&self, place: &mut WorkerState<B>, index: u32) -> Result<(), Exit> {
        let Some(incarnation) = self.take(index) else {
            return Ok(());
        };
        self.hook.before_decide(index, incarnation);
        self.decide(place, Version { index, incarnation })
    }

    // Decides a message that was taken, and records what it wrote.
    pub(crate) fn decide(&self, place: &mut WorkerState<B>, version: Version) -> Result<(), Exit> {
        let Some(frame) = self.frames.get(version.index as usize) else {
            return Ok(());
        };
        match self.attempt(place, frame, version.index) {
            Ok(attempt) => self.record(place, version, attempt),
            Err(Stop::Blocked(_)) => self.block(place, version.index),
            Err(stop) => Err(Exit::from(stop)),
        }
    }

    // Takes a message to be executed, where it is ready, and returns its incarnation.
    pub(crate) fn take(&self, index: u32) -> Option<u32> {
        self.board.slot(self.rt, index)?.take()
    }

    // Decides a message on the rows that it sees, and logs whose they are.
    fn attempt(
        &self,
        place: &mut WorkerState<B>,
        frame: &Frame,
        index: u32,
    ) -> Result<Box<Attempt>, Stop> {
        let (reads, writes, log) = place.sets(self.rt, self.board)?;
        let rows = ShardRows::new(self.rt, self.board.shards(), self.seen, index, log);
        let mut recorder = Recorder::over(rows, reads, writes);
        let reply = self.decision.decide(frame, &mut recorder)?;
        let (rows, reads, writes) = recorder.into_parts();
        let attempt = Attempt {
            execution: Execution::new(*frame, reads, writes, reply),
            log: rows.into_log(),
        };
        Ok(Box::new(self.alloc, attempt)?)
    }

    // Records what a message wrote and hands its execution in. Where a later one had written one of its rows before, all behind it are
    // validated again. Whether others wrote rows meanwhile that it read is asked of the book by whoever commits it.
    fn record(
        &self,
        place: &mut WorkerState<B>,
        version: Version,
        attempt: Box<Attempt>,
    ) -> Result<(), Exit> {
        let done = u32::try_from(place.done(self.board)).unwrap_or(0);
        let is_overtaken = self.hand_in(version, attempt, done)?;
        place.record_progress();
        place.watch(version);
        let Version { index, incarnation } = version;
        self.hook.after_record(index, incarnation);
        if is_overtaken {
            place.lower_validate(self.board, index.saturating_add(1));
        }
        Ok(())
    }

    // Writes the write set of an execution to the shards, in place of what the former one did, and keeps it in its message's slot.
    // Returns whether a later message had written one of its rows before.
    fn hand_in(
        &self,
        version: Version,
        attempt: Box<Attempt>,
        done: u32,
    ) -> Result<bool, AllocError> {
        let Some(mut slot) = self.board.slot(self.rt, version.index) else {
            return Ok(false);
        };
        let former = slot.former().map(|former| former.execution.writes());
        let Attempt { execution, log } = &*attempt;
        let shards = self.board.shards();
        let is_overtaken = shards.record(
            self.rt,
            self.alloc,
            version,
            execution.reads(),
            execution.writes(),
            log,
            former,
            done,
        )?;
        slot.put(attempt);
        Ok(is_overtaken)
    }

    // Aborts a message that met an ESTIMATE, to be executed again, and yields, so that the message that it waits for can run.
    fn block(&self, place: &mut WorkerState<B>, index: u32) -> Result<(), Exit> {
        if self.give_back(index) == AbortOutcome::Exhausted {
            return Err(Exit::Exhausted);
        }
        place.lower_execute(self.board, index);
        place.record_conflict();
        thread::yield_now();
        Ok(())
    }

    // Gives a message back that was taken to be executed.
    fn give_back(&self, index: u32) -> AbortOutcome {
        match self.board.slot(self.rt, index) {
            Some(mut slot) => slot.abort(),
            None => AbortOutcome::Kept,
        }
    }
}
