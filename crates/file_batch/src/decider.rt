ghost use Rattle.std.specs.Prelude.{◌≡◌, []};

use crate::body_count::BodyCount;
use crate::handing::{hand_over, wait_for};
use crate::piece::{OfOneBatch, Piece};
use crate::signals::Signals;
use issuer_fold::Prefix;
use issuer_view::Decide;
use rtrb::{Consumer, Producer};
use std::alloc::{AllocError, Global};
use std::mem;
use std::sync::Wait;

/// What the thread has that decides a batch: the pieces inbound from the one that reads, those outbound to it, and what is decided.
#[derive(Drop)]
pub(crate) struct Decider {
    pub(crate) inbound: Consumer<Piece, Global, OfOneBatch>,
    pub(crate) outbound: Producer<Piece>,
    /// The messages that are decided. Their replies are in the pieces.
    pub(crate) prefix: Prefix,
    /// How many of them are no message.
    pub(crate) unreadable: u32,
    ghost no_replies: { prefix.replies.items ≡ [] },
}

impl Decider {
    ghost use Rattle.std.specs.Prelude.{◌≡◌, ◌+◌, ◌<◌, ◌≤◌, ◌^◌, length, count_by, OnOk, IfOk};
    ghost use Rattle.issuer_rows.specs.Fold.{Rows, rows_after, replies_to};
    ghost use Rattle.rtrb.specs.Ring.{received, SameProducer, SameConsumer};
    ghost use Rattle.file_batch.specs.Counting.{is_unreadable};
    ghost use Rattle.file_batch.specs.Pieces.{HasCounted, HasDecided};

    /// Nothing is decided on this book yet. There is room for the rows of so many messages.
    pub(crate) fn new(
        alloc: Global,
        book: issuer_rows::Book,
        messages: u32,
        inbound: Consumer<Piece, Global, OfOneBatch>,
        outbound: Producer<Piece>,
    ) -> Result<Decider, AllocError>
        ensures ends { IfOk result (λ decider. (decider.inbound ≡ inbound) × (decider.outbound ≡ outbound)) }
        ensures count { IfOk result (λ decider. (decider.prefix.count ≡ 0) × (decider.unreadable ≡ 0)) }
        ensures book { IfOk result (λ decider. decider.prefix.book ≡ book) }
    {
        let mut prefix = Prefix::new(alloc, book);
        prefix.make_ready(messages as usize)?;
        Ok(Decider {
            inbound,
            outbound,
            prefix,
            unreadable: 0,
        })
    }

    /// Decides the pieces that come, one after another, up to one without frames, and hands each back. Where memory runs out, one without
    /// replies is handed back.
    pub(crate) fn work<W: Wait, F: Decide>(
        &mut self,
        rt: &W,
        alloc: Global,
        decision: &F,
        signals: &Signals,
    ) -> Result<(), AllocError>
        requires counted { HasCounted self.old }
        ensures ends { SameConsumer self.old.inbound self.new.inbound × SameProducer self.old.outbound self.new.outbound }
        ensures decided { (book : Rows) → HasDecided book self.old → OnOk result (HasDecided book self.new) }
    {
        signals.begin();
        for _ in rt.forever() {
            let mut piece = wait_for(rt, &mut self.inbound, &signals.read);
            let is_last = piece.frames.is_empty();
            let decided = self.decide(alloc, decision, &mut piece);
            hand_over(rt, &mut self.outbound, piece, &signals.decided);
            decided?;
            if is_last {
                return Ok(());
            }
        }
        unreachable!()
    }

    /// Decides the messages of a piece, and gives it the replies to them.
    pub(crate) fn decide<F: Decide>(
        &mut self,
        alloc: Global,
        decision: &F,
        piece: &mut Piece,
    ) -> Result<(), AllocError>
        requires few { self.old.prefix.count + length piece.old.frames.items < 2 ^ 32 }
        requires within { self.old.unreadable ≤ self.old.prefix.count }
        ensures ends { (self.new.inbound ≡ self.old.inbound) × (self.new.outbound ≡ self.old.outbound) }
        ensures frames { piece.new.frames.items ≡ piece.old.frames.items }
        ensures count { OnOk result (self.new.prefix.count ≡ self.old.prefix.count + length piece.old.frames.items) }
        ensures unreadable { OnOk result (self.new.unreadable ≡ self.old.unreadable + count_by is_unreadable piece.old.frames.items) }
        ensures book { OnOk result (self.new.prefix.book ≡ rows_after self.old.prefix.book piece.old.frames.items) }
        ensures replies { OnOk result (piece.new.replies.items ≡ replies_to self.old.prefix.book piece.old.frames.items) }
    {
        mem::swap(&mut self.prefix.replies, &mut piece.replies);
        self.prefix.replies.clear();
        let decided = self.prefix.decide_each(alloc, &piece.frames, decision);
        mem::swap(&mut self.prefix.replies, &mut piece.replies);
        if decided.is_err() {
            piece.replies.clear();
            return decided;
        }
        self.unreadable += BodyCount::of(&piece.frames).unreadable;
        Ok(())
    }
}
