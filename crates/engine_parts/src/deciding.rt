ghost use Rattle.std.specs.Prelude.{◌≡◌, ◌∷◌, [], ◌++◌, length, true, Some, IfOk, IfErr, OnOk};
ghost use Rattle.std.specs.FinMap as map;
ghost use Rattle.issuer_words.specs.Words.{IsLocal, overlay, reply_of, writes_of};
ghost use Rattle.issuer_view.specs.Words.{AgreesWithBook};
ghost use Rattle.engine_parts.specs.Decided.{AreDecided, bodies_of};
ghost use Rattle.engine_parts.specs.TwoBooks.{joined};

use crate::card_hints::CardHints;
use crate::decided_part::DecidedPart;
use crate::part_rows::PartRows;
use issuer_rows::{Book, Frame, Places, ReplyBody};
use issuer_view::{Decide, ReadSet, Recorder, Stop, WriteSet};
use std::alloc::{AllocError, Global};

/// Decides the messages of a part in their order, over the opening book, which stays as it is, and rows of their own, unless memory runs
/// out.
pub(crate) fn decide_part<F: Decide>(
    alloc: Global,
    opening: &Book,
    frames: &[Frame],
    parts: &[u32],
    part: usize,
    decision: &F,
) -> DecidedPart
    requires { length parts.now ≡ length frames.now }
    ensures { result.is_whole ≡ true → AreDecided opening.now (bodies_of part parts.now frames.now) result }
{
    let mut decided = DecidedPart::new(alloc);
    decided.is_whole = decided
        .decide_own(alloc, opening, frames, parts, part, decision)
        .is_ok();
    decided
}

// How many messages a part has.
fn count_of(parts: &[u32], part: usize) -> usize {
    parts
        .iter()
        .filter(|owner| **owner as usize == part)
        .count()
}

impl DecidedPart {
    // Decides the messages of a part in their order, where they stand among the others; none is decided before. It fails only where
    // memory runs out.
    fn decide_own<F: Decide>(
        &mut self,
        alloc: Global,
        opening: &Book,
        frames: &[Frame],
        parts: &[u32],
        part: usize,
        decision: &F,
    ) -> Result<(), AllocError>
        requires each { length parts.now ≡ length frames.now }
        requires replies { self.old.replies.items ≡ [] }
        requires rows { self.old.rows ≡ map.empty }
        ensures { OnOk result (AreDecided opening.now (bodies_of part parts.now frames.now) self.new) }
    {
        let messages = count_of(parts, part);
        self.make_room(messages)?;
        let mut hints = CardHints::new(alloc, opening, messages)?;
        let mut reads = ReadSet::new(alloc);
        let mut writes = WriteSet::new(alloc);
        for index in 0..frames.len() {
            let owner = parts[index] as usize;
            if owner == part {
                self.decide_next(
                    opening,
                    &frames[index],
                    decision,
                    &mut hints,
                    &mut reads,
                    &mut writes,
                )?;
            }
        }
        Ok(())
    }

    // Decides the next message by any local decision, over the memory of two sets. It fails only where memory runs out.
    fn decide_next<F: Decide>(
        &mut self,
        opening: &Book,
        frame: &Frame,
        decision: &F,
        hints: &mut CardHints,
        reads: &mut ReadSet,
        writes: &mut WriteSet,
    ) -> Result<(), AllocError>
        ensures rows { OnOk result (self.new.rows ≡ overlay self.old.rows (writes_of (joined opening.now self.old.rows) frame.now)) }
        ensures replies { OnOk result (self.new.replies.items ≡ self.old.replies.items ++ reply_of (joined opening.now self.old.rows) frame.now ∷ []) }
    {
        let (seen, own) = hints.places_of(frame);
        let rows = PartRows::new(opening, &self.rows, seen, own);
        let mut recorder = Recorder::over(rows, reads.take(), writes.take());
        let decided = decision.decide(frame, &mut recorder);
        let rows;
        (rows, *reads, *writes) = recorder.into_parts();
        let (seen, mut own) = rows.into_places();
        self.append(opening, frame, &decided, reads, writes, &mut own)?;
        hints.note(frame, &seen, &own);
        Ok(())
    }

    // One more message, as it was decided by the rows that the part sees. What was read is for the clauses alone.
    fn append(
        &mut self,
        opening: &Book,
        frame: &Frame,
        decided: &Result<ReplyBody, Stop>,
        reads: &ReadSet,
        writes: &WriteSet,
        places: &mut Places,
    ) -> Result<(), AllocError>
        requires local { IfOk decided.now (λ reply. IsLocal frame.now reads.now writes.now reply) }
        requires agrees { AgreesWithBook (Some (joined opening.now self.old.rows)) reads.now }
        requires stops { IfErr decided.now (λ stop. stop ≡ Stop.OutOfMemory) }
        ensures rows { OnOk result (self.new.rows ≡ overlay self.old.rows (writes_of (joined opening.now self.old.rows) frame.now)) }
        ensures replies { OnOk result (self.new.replies.items ≡ self.old.replies.items ++ reply_of (joined opening.now self.old.rows) frame.now ∷ []) }
    {
        let _ = opening;
        let _ = reads;
        match decided {
            Ok(reply) => {
                self.rows.put_all(writes, places)?;
                self.replies.push(*reply)?;
                Ok(())
            }
            Err(Stop::OutOfMemory) => Err(AllocError),
            Err(_) => unreachable!(),
        }
    }
}
