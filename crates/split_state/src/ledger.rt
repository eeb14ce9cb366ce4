ghost use Rattle.std.specs.Prelude.{◌≡◌, ◌≢◌, ◌<◌, ◌≤◌, ◌↔◌, [], Ok, Some, IfOk, IfSome, OnOk, OnErr, IsTrue, length, slice_get};
ghost use Rattle.issuer_words.specs.Words.{IsLocal, reply_of};
ghost use Rattle.issuer_view.specs.Words.{AgreesWithBook};
ghost use Rattle.split_state.specs.Progress.{opened, further, book_of, replies_of, IsNext};
ghost use Rattle.split_state.specs.declared.commit_outcome.CommitOutcome.TheVariants.{Committed, Stale};

use crate::agreement::agrees;
use crate::commit_outcome::CommitOutcome;
use crate::frames::is_at;
use issuer_fold::{LookAhead, Prefix, are_same_frames};
use issuer_rows::{Book, Frame, Places};
use issuer_view::{Decide, Execution, ReadSet, WriteSet};
use std::alloc::{AllocError, Global};
use std::marker::Model;

/// The messages of a batch that are committed, in the order of their arrival, with the book that the batch was opened with. Their
/// replies and the book after them are those of deciding them one after another. Contracts see how far it has come.
#[derive(Drop)]
pub struct Ledger<'a> {
    opening: &'a Book,
    frames: &'a [Frame],
    prefix: Prefix,
    ahead: LookAhead,
}

impl<'a> Model for Ledger<'a> {
    ghost use Rattle.std.specs.FinMap as map;
    ghost use Rattle.issuer_rows.specs.contracts.frame.Frame.{the_row as frame_row};
    ghost use Rattle.issuer_rows.specs.contracts.row_key.RowKey.{the_row as key_row};
    ghost use Rattle.issuer_rows.specs.contracts.row_val.RowVal.{the_row as val_row};
    ghost use Rattle.split_state.specs.Progress.{Progress, IsFold, progress_code};

    ghost Value = { Progress };

    ghost coded = { progress_code (map.code key_row.coded val_row.coded) frame_row.coded };

    ghost view = { λ l. record { opening = l.opening.now; frames = l.frames.now; count = l.prefix.count } };

    ghost invariant = { λ l. IsFold (record { opening = l.opening.now; frames = l.frames.now; count = l.prefix.count }) l.prefix.replies.items l.prefix.book };
}

impl<'a> Ledger<'a> {
    /// A ledger of this batch, at most 65,536 bodies, in which no message is committed. Room for a row and a reply of each is made at
    /// once. It fails only where memory runs out.
    pub fn new(
        alloc: Global,
        opening: &'a Book,
        frames: &'a [Frame],
    ) -> Result<Ledger<'a>, AllocError>
        requires { length frames.now ≤ 65536 }
        ensures { IfOk result (λ ledger. ledger ≡ opened opening.now frames.now) }
    {
        Ok(Ledger {
            opening,
            frames,
            prefix: empty_prefix(alloc, opening, frames.len())?,
            ahead: LookAhead::new(),
        })
    }

    /// How many messages are committed, which are no more than there are.
    pub fn count(&self) -> u32
        ensures count { result ≡ self.now.count }
        ensures within { result ≤ length self.now.frames }
    {
        self.prefix.count
    }

    /// Whether all messages are committed.
    pub fn is_done(&self) -> bool
        ensures done { IsTrue result ↔ (self.now.count ≡ length self.now.frames) }
        ensures within { self.now.count ≤ length self.now.frames }
    {
        self.prefix.count as usize == self.frames.len()
    }

    /// The book after the messages that are committed.
    pub fn book(&self) -> &Book
        ensures { result.now ≡ book_of self.now }
    {
        &self.prefix.book
    }

    /// Whether the batch was opened with this book and these bodies.
    pub fn opened_with(&self, opening: &Book, frames: &[Frame]) -> bool
        ensures { IsTrue result ↔ ((self.now.opening ≡ opening.now) × (self.now.frames ≡ frames.now)) }
    {
        self.opening.is_same(opening) && are_same_frames(self.frames, frames)
    }

    /// Commits the execution, where it is that of the next message and the book after those before it has each row as it was read.
    /// To find that it isn't takes no memory.
    pub fn try_commit(&mut self, execution: &Execution) -> Result<CommitOutcome, AllocError>
        ensures when { IfOk result (λ verdict. (verdict ≡ Committed) ↔ IsNext self.old execution.now) }
        ensures stale { ¬ IsNext self.old execution.now → result ≡ Ok Stale }
        ensures committed { result ≡ Ok Committed → self.new ≡ further self.old }
        ensures otherwise { result ≢ Ok Committed → self.new ≡ self.old }
    {
        let mut places = self.prefix.places_of(execution.frame());
        if !self.is_next(execution, &mut places) {
            return Ok(CommitOutcome::Stale);
        }
        let _ = execution.frame();
        self.prefix.extend(execution, &mut places)?;
        Ok(CommitOutcome::Committed)
    }

    /// Decides the next message on the ledger's own book, and commits it: nothing is to be compared, since no other worker has the book.
    /// What it read and wrote is left in the two sets, whose memory it uses. It fails only where memory runs out, and the ledger is the
    /// same then.
    pub fn decide_next<F: Decide>(
        &mut self,
        decision: &F,
        reads: &mut ReadSet,
        writes: &mut WriteSet,
    ) -> Result<(), AllocError>
        requires { self.old.count < length self.old.frames }
        ensures committed { OnOk result (self.new ≡ further self.old) }
        ensures read { OnOk result (AgreesWithBook (Some (book_of self.old)) reads.new) }
        ensures local { OnOk result (IfSome (slice_get self.old.frames self.old.count) (λ frame.
            IsLocal frame reads.new writes.new (reply_of (book_of self.old) frame))) }
        ensures otherwise { OnErr result (self.new ≡ self.old) }
    {
        let index = self.prefix.count as usize;
        let frame = &self.frames[index];
        let places = self.prefix.places_at(self.frames, index, &mut self.ahead);
        self.prefix
            .decide_one(frame, decision, places, reads, writes)
    }

    // Whether the execution is that of the next message, and each row is as it was read. Where they stand is noted.
    fn is_next(&self, execution: &Execution, places: &mut Places) -> bool
        ensures { IsTrue result ↔ IsNext self.now execution.now }
    {
        is_at(self.frames, self.prefix.count, execution.frame())
            && agrees(&self.prefix.book, execution.reads(), places)
    }

    /// The committed messages: the book and the replies after them are those of deciding them one after another on the opening book.
    pub fn into_prefix(self) -> Prefix
        ensures count { result.count ≡ self.entry.count }
        ensures within { result.count ≤ length self.entry.frames }
        ensures book { result.book ≡ book_of self.entry }
        ensures replies { result.replies.items ≡ replies_of self.entry }
    {
        let Ledger {
            opening: _,
            frames: _,
            prefix,
            ahead: _,
        } = self;
        prefix
    }
}

// A prefix of no message on a copy of this book, with room for a row and a reply of so many.
fn empty_prefix(alloc: Global, opening: &Book, messages: usize) -> Result<Prefix, AllocError>
    ensures count { IfOk result (λ prefix. prefix.count ≡ 0) }
    ensures book { IfOk result (λ prefix. prefix.book ≡ opening.now) }
    ensures replies { IfOk result (λ prefix. prefix.replies.items ≡ []) }
{
    let mut prefix = Prefix::new(alloc, opening.copy()?);
    prefix.make_ready(messages)?;
    prefix.replies.reserve(messages)?;
    Ok(prefix)
}
