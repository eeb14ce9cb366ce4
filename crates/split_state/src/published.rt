ghost use Rattle.std.specs.Prelude.{◌≡◌, ◌≢◌, ◌<◌, ◌≤◌, ◌↔◌, [], Ok, IfOk, IsTrue, OnOk, OnErr, length};
ghost use Rattle.split_state.specs.CursorRule.{publisher};
ghost use Rattle.split_state.specs.Progress.{further, IsNext};
ghost use Rattle.split_state.specs.Standing.{advanced, told};
ghost use Rattle.split_state.specs.declared.commit_outcome.CommitOutcome.TheVariants.{Committed, Stale};

use crate::commit_outcome::CommitOutcome;
use crate::cursors::Cursors;
use crate::ledger::Ledger;
use crate::seat_view::CursorSeat;
use issuer_view::{Decide, Execution, ReadSet, WriteSet};
use std::alloc::AllocError;
use std::marker::Model;

/// A ledger with the one seat that may raise how many messages are done. What the seat raised done to is never more than is committed.
#[derive(Drop)]
pub struct Published<'a> {
    ledger: Ledger<'a>,
    seat: CursorSeat,
}

impl<'a> Model for Published<'a> {
    ghost use Rattle.atomic_table.specs.Seated.{TableId, table_id_coded};
    ghost use Rattle.std.specs.FinMap as map;
    ghost use Rattle.issuer_rows.specs.contracts.frame.Frame.{the_row as frame_row};
    ghost use Rattle.issuer_rows.specs.contracts.row_key.RowKey.{the_row as key_row};
    ghost use Rattle.issuer_rows.specs.contracts.row_val.RowVal.{the_row as val_row};
    ghost use Rattle.split_state.specs.Progress.{progress_code};
    ghost use Rattle.split_state.specs.Standing.{Standing, IsPublisher, standing_code};

    ghost Value = { Standing };

    ghost coded = { standing_code (progress_code (map.code key_row.coded val_row.coded) frame_row.coded) table_id_coded };

    ghost view = { λ p. record { ledger = p.ledger; table = p.seat.table_id; published = p.seat.me.0.seen } };

    ghost invariant = { λ p. IsPublisher p.ledger p.seat.me.0 };
}

impl<'a> Published<'a> {
    /// A ledger with the seat that may raise done, before its first step, of cursors for as many messages as the ledger has.
    pub fn new(ledger: Ledger<'a>, seat: CursorSeat) -> Published<'a>
        requires { seat.me ≡ (publisher (length ledger.frames), []) }
        ensures { result ≡ record { ledger = ledger.entry; table = seat.table_id; published = 0 } }
    {
        Published { ledger, seat }
    }

    /// Commits the execution, where it is that of the next message and the book after those before it has each row as it was read. It
    /// fails only where memory runs out.
    pub fn try_commit(&mut self, execution: &Execution) -> Result<CommitOutcome, AllocError>
        ensures when { IfOk result (λ verdict. (verdict ≡ Committed) ↔ IsNext self.old.ledger execution.now) }
        ensures stale { ¬ IsNext self.old.ledger execution.now → result ≡ Ok Stale }
        ensures committed { result ≡ Ok Committed → self.new ≡ advanced self.old }
        ensures otherwise { result ≢ Ok Committed → self.new ≡ self.old }
    {
        self.ledger.try_commit(execution)
    }

    /// Decides the next message on the ledger's own book, and commits it. It fails only where memory runs out, and nothing is changed then.
    pub fn decide_next<F: Decide>(
        &mut self,
        decision: &F,
        reads: &mut ReadSet,
        writes: &mut WriteSet,
    ) -> Result<(), AllocError>
        requires { self.old.ledger.count < length self.old.ledger.frames }
        ensures committed { OnOk result (self.new ≡ advanced self.old) }
        ensures otherwise { OnErr result (self.new ≡ self.old) }
    {
        self.ledger.decide_next(decision, reads, writes)
    }

    /// Raises done to how many messages are committed.
    pub fn publish(&mut self, cursors: &Cursors)
        requires { self.old.table ≡ cursors.now }
        ensures { self.new ≡ told self.old }
    {
        let count = self.ledger.count();
        cursors.raise(&mut self.seat, u64::from(count));
    }

    /// How many messages are committed.
    pub fn count(&self) -> u32
        ensures { result ≡ self.now.ledger.count }
    {
        self.ledger.count()
    }

    /// Whether all messages are committed.
    pub fn is_done(&self) -> bool
        ensures done { IsTrue result ↔ (self.now.ledger.count ≡ length self.now.ledger.frames) }
        ensures within { self.now.ledger.count ≤ length self.now.ledger.frames }
    {
        self.ledger.is_done()
    }

    /// The ledger, and the last value of done, once no thread has the cursors any more: it is what was published, and no more than is
    /// committed.
    pub fn close(self, cursors: Cursors) -> (Ledger<'a>, u64)
        requires { self.table ≡ cursors }
        ensures ledger { result.0 ≡ self.entry.ledger }
        ensures published { result.1 ≡ self.entry.published }
        ensures behind { result.1 ≤ self.entry.ledger.count }
    {
        let Published { ledger, seat } = self;
        let done = cursors.close(seat);
        (ledger, done)
    }

    /// The ledger, without its seat.
    pub fn into_ledger(self) -> Ledger<'a>
        ensures { result ≡ self.entry.ledger }
    {
        let Published { ledger, seat: _ } = self;
        ledger
    }
}
