ghost use Rattle.std.specs.Prelude.{◌<◌, length};

use crate::exit::Exit;
use crate::leader::Leader;
use crate::leader_ledger::LeaderLedger;
use crate::run_brand::RunBrand;
use crate::turns::SplitWorker;
use engine_workers::Hook;
use issuer_view::Decide;
use split_state::{CommitOutcome, MessageSlot};
use std::alloc::AllocError;
use std::sync::Wait;
use std::thread;
use stm_memory::Version;

// Workers are notified of commits so many at a time, and of the last one.
const AT_ONCE: u32 = 16;

impl<B: RunBrand, R: Wait, F: Decide, G: Hook> SplitWorker<'_, B, R, F, G> {
    /// Turns of the first worker, until all is committed or the stop mark is set. The ledger is handed back.
    pub(crate) fn lead<'a>(&self, mut leader: Leader<'a, B>) -> LeaderLedger<'a, B> {
        for _ in self.rt.forever() {
            if let Err(exit) = self.lead_turn(&mut leader) {
                self.exit(exit);
                break;
            }
        }
        leader.into_leader_ledger()
    }

    // Executes a message that is near, or else looks after the others.
    fn lead_turn(&self, leader: &mut Leader<'_, B>) -> Result<(), Exit> {
        if self.board.is_stopped() {
            return Err(Exit::Stopped);
        }
        let count = leader.ledger.count();
        match self.draw_near(&mut leader.place, u64::from(count)) {
            Some(index) => self.lead_message(leader, index),
            None => self.look_after(leader),
        }
    }

    // Commits what can be, and is done where that is all. Else a message is validated, or the worker yields.
    fn look_after(&self, leader: &mut Leader<'_, B>) -> Result<(), Exit> {
        self.commit(leader)?;
        if leader.ledger.is_done() {
            return Err(Exit::Done);
        }
        let count = leader.ledger.count();
        if !self.validate_next(&mut leader.place, u64::from(count))? {
            thread::yield_now();
        }
        Ok(())
    }

    // Executes a message where it is ready. Right before it is decided what can be is committed: where that is all before it, it is
    // decided on the ledger's book, and committed with that.
    fn lead_message(&self, leader: &mut Leader<'_, B>, index: u32) -> Result<(), Exit> {
        let Some(incarnation) = self.take(index) else {
            return Ok(());
        };
        self.hook.before_decide(index, incarnation);
        self.commit(leader)?;
        let count = leader.ledger.count();
        self.validate_next(&mut leader.place, u64::from(count))?;
        let version = Version { index, incarnation };
        if count == index && !leader.ledger.is_done() {
            return self.decide_next(leader, version);
        }
        self.decide(&mut leader.place, version)
    }

    // Decides the next message on the ledger's book, and writes its rows where the other workers see them. Where a later message had
    // written one of them before, all behind it are validated again.
    fn decide_next(&self, leader: &mut Leader<'_, B>, version: Version) -> Result<(), Exit>
        requires { leader.old.ledger.published.ledger.count < length leader.old.ledger.published.ledger.frames }
    {
        leader.decide_next(self.decision)?;
        let is_overtaken = self.settle(leader, version)?;
        let Version { index, incarnation } = version;
        self.hook.after_record(index, incarnation);
        if is_overtaken {
            leader
                .place
                .lower_validate(self.board, index.saturating_add(1));
        }
        self.notify(&mut leader.ledger);
        Ok(())
    }

    // Writes the rows of a message that was decided on the ledger's book to the shards, in place of what it wrote before. Returns whether
    // a later message had written one of them before.
    fn settle(&self, leader: &Leader<'_, B>, version: Version) -> Result<bool, AllocError> {
        let Some(mut slot) = self.board.slot(self.rt, version.index) else {
            return Ok(false);
        };
        let former = slot.former().map(|former| former.execution.writes());
        let (reads, writes) = leader.sets();
        let done = leader.ledger.count();
        let shards = self.board.shards();
        let is_overtaken = shards.record(
            self.rt,
            self.alloc,
            version,
            reads,
            writes,
            &[],
            former,
            done,
        )?;
        slot.settle();
        Ok(is_overtaken)
    }

    // Commits messages in their order, as many as can be.
    fn commit(&self, leader: &mut Leader<'_, B>) -> Result<(), Exit> {
        for _ in self.rt.forever() {
            if !self.commit_next(leader)? {
                return Ok(());
            }
            self.notify(&mut leader.ledger);
        }
        unreachable!()
    }

    // Commits the next message, where it can be. Returns whether it is committed.
    fn commit_next(&self, leader: &mut Leader<'_, B>) -> Result<bool, Exit> {
        let index = leader.ledger.count();
        let Some(mut slot) = self.board.free_slot(index) else {
            return Ok(false);
        };
        self.commit_in(leader, index, &mut slot)
    }

    // Commits the message of this slot where it is executed, and aborts it where the book doesn't agree with what it read. Returns
    // whether it is committed.
    fn commit_in(
        &self,
        leader: &mut Leader<'_, B>,
        index: u32,
        slot: &mut MessageSlot,
    ) -> Result<bool, Exit> {
        let Some(attempt) = slot.attempt() else {
            return Ok(false);
        };
        match leader.ledger.commit(&attempt.execution)? {
            CommitOutcome::Committed => {
                if let Some(done) = slot.commit() {
                    leader.place.keep(self.rt, self.board, done)?;
                }
                Ok(true)
            }
            CommitOutcome::Stale => {
                self.abort(&mut leader.place, index, slot)?;
                Ok(false)
            }
        }
    }

    // Reports to the workers how many messages are committed, where it is time to.
    fn notify(&self, ledger: &mut LeaderLedger<'_, B>) {
        if ledger.count() % AT_ONCE == 0 || ledger.is_done() {
            ledger.publish(self.board.cursors());
        }
    }
}
