ghost use Rattle.std.specs.Prelude.{◌≡◌, ◌≢◌, ◌<◌, ◌≤◌, ◌↔◌, Ok, IfOk, IsTrue, OnOk, OnErr, length};
ghost use Rattle.split_state.specs.Progress.{IsNext};
ghost use Rattle.split_state.specs.declared.commit_outcome.CommitOutcome.TheVariants.{Committed, Stale};
ghost use Rattle.split_state.specs.Standing.{advanced, told};
ghost use Rattle.std.specs.Coded.{Coded-set};
ghost use Rattle.engine_split.specs.RunBrands.{rows_coded};

use crate::run_brand::RunBrand;
use issuer_view::{Decide, Execution, ReadSet, WriteSet};
use split_state::{CommitOutcome, Cursors, Ledger, Published};
use std::alloc::AllocError;
use std::marker::PhantomData;

/// The ledger with the seat that publishes, which the first worker has alone.
#[derive(Drop)]
pub(crate) struct LeaderLedger<'a, B: RunBrand> {
    published: Published<'a>,
    of: PhantomData<B>,
    ghost at: { published.table ≡ B.table },
    ghost opening: { published.ledger.opening ≡ B.opening } by { Coded-set rows_coded published.ledger.opening B.opening },
    ghost frames: { published.ledger.frames ≡ B.frames },
}

impl<'a, B: RunBrand> LeaderLedger<'a, B> {
    // The ledger, which is of the run's batch, and whose seat is at the run's cursors.
    pub(crate) fn new(published: Published<'a>) -> LeaderLedger<'a, B>
        requires table { published.table ≡ B.table }
        requires opening { published.ledger.opening ≡ B.opening }
        requires frames { published.ledger.frames ≡ B.frames }
        ensures { result.published ≡ published.entry }
    {
        LeaderLedger {
            published,
            of: PhantomData,
        }
    }

    // Commits the execution, where it is that of the next message and the book agrees with what it read.
    pub(crate) fn commit(&mut self, execution: &Execution) -> Result<CommitOutcome, AllocError>
        ensures when { IfOk result (λ verdict. (verdict ≡ Committed) ↔ IsNext self.old.published.ledger execution.now) }
        ensures stale { ¬ IsNext self.old.published.ledger execution.now → result ≡ Ok Stale }
        ensures committed { result ≡ Ok Committed → self.new.published ≡ advanced self.old.published }
        ensures otherwise { result ≢ Ok Committed → self.new.published ≡ self.old.published }
    {
        self.published.try_commit(execution)
    }

    // Decides the next message on the ledger's own book, and commits it.
    pub(crate) fn decide_next<F: Decide>(
        &mut self,
        decision: &F,
        reads: &mut ReadSet,
        writes: &mut WriteSet,
    ) -> Result<(), AllocError>
        requires { self.old.published.ledger.count < length self.old.published.ledger.frames }
        ensures committed { OnOk result (self.new.published ≡ advanced self.old.published) }
        ensures otherwise { OnErr result (self.new.published ≡ self.old.published) }
    {
        self.published.decide_next(decision, reads, writes)
    }

    // Reports to the workers how many messages are committed.
    pub(crate) fn publish(&mut self, cursors: &Cursors)
        requires { cursors.now ≡ B.table }
        ensures { self.new.published ≡ told self.old.published }
    {
        self.published.publish(cursors);
    }

    // How many messages are committed.
    pub(crate) fn count(&self) -> u32
        ensures { result ≡ self.now.published.ledger.count }
    {
        self.published.count()
    }

    // Whether all messages are committed.
    pub(crate) fn is_done(&self) -> bool
        ensures done { IsTrue result ↔ (self.now.published.ledger.count ≡ length self.now.published.ledger.frames) }
        ensures within { self.now.published.ledger.count ≤ length self.now.published.ledger.frames }
    {
        self.published.is_done()
    }

    // The ledger, once no thread has the cursors any more.
    pub(crate) fn into_ledger(self) -> Ledger<'a>
        ensures ledger { result ≡ self.entry.published.ledger }
        ensures opening { result.opening ≡ B.opening }
        ensures frames { result.frames ≡ B.frames }
    {
        let LeaderLedger { published, of: _ } = self;
        published.into_ledger()
    }
}
