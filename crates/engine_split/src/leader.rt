ghost use Rattle.std.specs.Prelude.{◌<◌, length};

use crate::board::Board;
use crate::leader_ledger::LeaderLedger;
use crate::run_brand::RunBrand;
use crate::worker_state::WorkerState;
use issuer_view::{Decide, ReadSet, WriteSet};
use std::alloc::{AllocError, Global};

/// What the first worker has alone: its place, the ledger, and two sets, over whose memory it decides on the ledger's book.
#[derive(Drop)]
pub(crate) struct Leader<'a, B: RunBrand> {
    pub(crate) place: WorkerState<B>,
    pub(crate) ledger: LeaderLedger<'a, B>,
    reads: ReadSet,
    writes: WriteSet,
}

impl<'a, B: RunBrand> Leader<'a, B> {
    // The first worker, at this place and with this ledger.
    pub(crate) fn new(
        alloc: Global,
        place: WorkerState<B>,
        ledger: LeaderLedger<'a, B>,
    ) -> Leader<'a, B> {
        Leader {
            place,
            ledger,
            reads: ReadSet::new(alloc),
            writes: WriteSet::new(alloc),
        }
    }

    // A place for another worker.
    pub(crate) fn another(&mut self, board: &Board<B>) -> WorkerState<B> {
        self.place.another(board)
    }

    // Decides the next message on the ledger's book, and commits it.
    pub(crate) fn decide_next<F: Decide>(&mut self, decision: &F) -> Result<(), AllocError>
        requires { self.old.ledger.published.ledger.count < length self.old.ledger.published.ledger.frames }
    {
        self.ledger
            .decide_next(decision, &mut self.reads, &mut self.writes)
    }

    // The rows that the last such message read and wrote.
    pub(crate) fn sets(&self) -> (&ReadSet, &WriteSet) {
        (&self.reads, &self.writes)
    }

    // The ledger.
    pub(crate) fn into_leader_ledger(self) -> LeaderLedger<'a, B> {
        let Leader { ledger, .. } = self;
        ledger
    }
}
