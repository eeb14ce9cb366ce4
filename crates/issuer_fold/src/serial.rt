ghost use Rattle.std.specs.Prelude.{◌≡◌, ◌+◌, ◌<◌, ◌≤◌, ◌^◌, ◌∷◌, [], ◌++◌, ℕ, Some, drop, length, IfOk, OnOk, OnErr};
ghost use Rattle.issuer_fold.specs.Begun.{AreDecided};
ghost use Rattle.issuer_words.specs.Words.{IsLocal, replies_to, reply_of, rows_after, rows_after_one};
ghost use Rattle.issuer_view.specs.Words.{AgreesWithBook};

use crate::look_ahead::LookAhead;
use crate::plain_rows::PlainRows;
use crate::prefix::Prefix;
use issuer_rows::{Frame, Places};
use issuer_view::{Decide, ReadSet, Recorder, WriteSet};
use std::alloc::{AllocError, Global};

impl Prefix {
    /// Decides one more body, whose rows may stand at these places, by any local decision. What it read and wrote is left in the two sets,
    /// whose memory it uses: what they held is gone. It fails only where memory runs out, and the prefix is the same then.
    pub fn decide_one<F: Decide>(
        &mut self,
        frame: &Frame,
        decision: &F,
        places: Places,
        reads: &mut ReadSet,
        writes: &mut WriteSet,
    ) -> Result<(), AllocError>
        requires room { self.old.count + 1 < 2 ^ 32 }
        ensures count { OnOk result (self.new.count ≡ self.old.count + 1) }
        ensures book { OnOk result (self.new.book ≡ rows_after_one self.old.book frame.now) }
        ensures replies { OnOk result (self.new.replies.items ≡ self.old.replies.items ++ reply_of self.old.book frame.now ∷ []) }
        ensures read { OnOk result (AgreesWithBook (Some self.old.book) reads.new) }
        ensures local { OnOk result (IsLocal frame.now reads.new writes.new (reply_of self.old.book frame.now)) }
        ensures kept { OnErr result ((self.new.count ≡ self.old.count) × (self.new.book ≡ self.old.book) × (self.new.replies.items ≡ self.old.replies.items)) }
    {
        let rows = PlainRows::near(&self.book, places);
        let mut recorder = Recorder::over(rows, reads.take(), writes.take());
        let decided = decision.decide(frame, &mut recorder);
        let rows;
        (rows, *reads, *writes) = recorder.into_parts();
        let mut places = rows.into_places();
        self.append(frame, &decided, reads, writes, &mut places)
    }

    /// Decides these bodies too, one after another, by any local decision. It fails only where memory runs out, and the prefix is then
    /// that of the bodies before the one at which it did.
    pub fn decide_each<F: Decide>(
        &mut self,
        alloc: Global,
        frames: &[Frame],
        decision: &F,
    ) -> Result<(), AllocError>
        requires room { self.old.count + length frames.now < 2 ^ 32 }
        ensures count { OnOk result (self.new.count ≡ self.old.count + length frames.now) }
        ensures book { OnOk result (self.new.book ≡ rows_after self.old.book frames.now) }
        ensures replies { OnOk result (self.new.replies.items ≡ self.old.replies.items ++ replies_to self.old.book frames.now) }
        ensures kept { OnErr result ((decided : ℕ) × AreDecided self.old self.new frames.now decided) }
    {
        self.make_ready(frames.len())?;
        self.replies.reserve(frames.len())?;
        let mut reads = ReadSet::new(alloc);
        let mut writes = WriteSet::new(alloc);
        let mut ahead = LookAhead::new();
        let mut index: usize = 0;
        for frame in frames {
            let places = self.places_at(frames, index, &mut ahead);
            self.decide_one(frame, decision, places, &mut reads, &mut writes)?;
            index = index.wrapping_add(1);
        }
        Ok(())
    }
}

/// Decides the bodies that a prefix leaves, one after another, by any local decision. It fails only where memory runs out, and the prefix
/// is gone then.
pub fn decide_all_by<F: Decide>(
    alloc: Global,
    prefix: Prefix,
    frames: &[Frame],
    decision: &F,
) -> Result<Prefix, AllocError>
    requires count { prefix.count ≤ length frames.now }
    requires frames { length frames.now ≤ 65536 }
    ensures count { IfOk result (λ after. after.count ≡ length frames.now) }
    ensures book { IfOk result (λ after. after.book ≡ rows_after prefix.book (drop prefix.count frames.now)) }
    ensures replies { IfOk result (λ after. after.replies.items ≡ prefix.replies.items ++ replies_to prefix.book (drop prefix.count frames.now)) }
{
    let mut after = prefix;
    let rest = &frames[after.count as usize..];
    after.decide_each(alloc, rest, decision)?;
    Ok(after)
}
