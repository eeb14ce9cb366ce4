ghost use Rattle.std.specs.Prelude.{◌≡◌, ◌∷◌, ◌++◌, [], IfOk, IfErr, OnOk, OnErr};
ghost use Rattle.issuer_fold.specs.Formers.{LeadsBack};
ghost use Rattle.issuer_fold.specs.InPlace.{IsInPlace};
ghost use Rattle.issuer_words.specs.Words.{IsLocal, Rows, reply_of, rows_after_one};
ghost use Rattle.issuer_view.specs.Words.{AgreesWithBook};

use crate::formers::Formers;
use crate::look_ahead::LookAhead;
use crate::plain_rows::PlainRows;
use issuer_rows::{Book, CardPlaces, Frame, Places, ReplyBody};
use issuer_view::{Decide, ReadSet, Recorder, Stop, WriteSet};
use std::alloc::{AllocError, Global};

/// What deciding bodies on a book itself came to.
#[derive(Drop)]
pub struct InPlace {
    /// The replies, one for each body, in the order of arrival.
    pub replies: Vec<ReplyBody>,
    /// What the rows were before they were written.
    pub formers: Formers,
}

/// Decides these bodies, one after another, by any local decision, on the book itself. It costs what the bodies touch, and not what the
/// book has. It fails only where memory runs out, and the book is then what it was.
pub fn decide_in_place<F: Decide>(
    alloc: Global,
    book: &mut Book,
    frames: &[Frame],
    decision: &F,
) -> Result<InPlace, AllocError>
    ensures ok { IfOk result (λ decided. IsInPlace book.old frames.now book.new decided) }
    ensures err { OnErr result (book.new ≡ book.old) }
{
    let mut decided = InPlace {
        replies: Vec::new(alloc),
        formers: Formers::new(alloc),
    };
    match decided.decide_each(alloc, book, frames, decision) {
        Ok(()) => Ok(decided),
        Err(fault) => {
            decided.formers.give_back(book);
            Err(fault)
        }
    }
}

impl InPlace {
    // Decides these bodies, before which none was. After an error some of them may be decided: what the rows were leads back all the same.
    fn decide_each<F: Decide>(
        &mut self,
        alloc: Global,
        book: &mut Book,
        frames: &[Frame],
        decision: &F,
    ) -> Result<(), AllocError>
        requires replies { self.old.replies.items ≡ [] }
        requires formers { self.old.formers ≡ [] }
        ensures ok { OnOk result (IsInPlace book.old frames.now book.new self.new) }
        ensures back { LeadsBack book.new self.new.formers book.old }
    {
        book.reserve(frames.len())?;
        self.replies.reserve(frames.len())?;
        let mut cards = CardPlaces::new(alloc);
        cards.find_if_few(book, frames.len())?;
        let mut reads = ReadSet::new(alloc);
        let mut writes = WriteSet::new(alloc);
        let mut ahead = LookAhead::new();
        let mut index: usize = 0;
        for frame in frames {
            let mut places = ahead.places_at(&cards, book, frames, index);
            self.decide_one(book, frame, decision, &mut places, &mut reads, &mut writes)?;
            cards.note(frame, &places);
            index = index.wrapping_add(1);
        }
        Ok(())
    }

    // Decides one more body, whose rows may stand at these places, over the memory of two sets.
    fn decide_one<F: Decide>(
        &mut self,
        book: &mut Book,
        frame: &Frame,
        decision: &F,
        places: &mut Places,
        reads: &mut ReadSet,
        writes: &mut WriteSet,
    ) -> Result<(), AllocError>
        ensures book { OnOk result (book.new ≡ rows_after_one book.old frame.now) }
        ensures replies { OnOk result (self.new.replies.items ≡ self.old.replies.items ++ reply_of book.old frame.now ∷ []) }
        ensures back { (earlier : Rows) → LeadsBack book.old self.old.formers earlier → LeadsBack book.new self.new.formers earlier }
    {
        let rows = PlainRows::near(book, *places);
        let mut recorder = Recorder::over(rows, reads.take(), writes.take());
        let decided = decision.decide(frame, &mut recorder);
        let rows;
        (rows, *reads, *writes) = recorder.into_parts();
        *places = rows.into_places();
        self.append(book, frame, &decided, reads, writes, places)
    }

    // One more body, as it was decided by rows that are those of the book. The body, and what was read, are for the clauses alone.
    fn append(
        &mut self,
        book: &mut Book,
        frame: &Frame,
        decided: &Result<ReplyBody, Stop>,
        reads: &ReadSet,
        writes: &WriteSet,
        places: &mut Places,
    ) -> Result<(), AllocError>
        requires local { IfOk decided.now (λ reply. IsLocal frame.now reads.now writes.now reply) }
        requires agrees { AgreesWithBook (Some book.old) reads.now }
        requires stops { IfErr decided.now (λ stop. stop ≡ Stop.OutOfMemory) }
        ensures book { OnOk result (book.new ≡ rows_after_one book.old frame.now) }
        ensures replies { OnOk result (self.new.replies.items ≡ self.old.replies.items ++ reply_of book.old frame.now ∷ []) }
        ensures back { (earlier : Rows) → LeadsBack book.old self.old.formers earlier → LeadsBack book.new self.new.formers earlier }
    {
        let _ = frame;
        let _ = reads;
        match decided {
            Ok(reply) => {
                self.formers.put_each(book, writes, places)?;
                self.replies.push(*reply)?;
                Ok(())
            }
            Err(Stop::OutOfMemory) => Err(AllocError),
            Err(_) => unreachable!(),
        }
    }
}
