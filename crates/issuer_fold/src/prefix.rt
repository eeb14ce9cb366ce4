ghost use Rattle.std.specs.Prelude.{◌≡◌, ◌+◌, ◌<◌, ◌^◌, [], ◌∷◌, ◌++◌, vec_len, vec_capacity, Some, IfOk, IfErr, OnOk, OnErr};
ghost use Rattle.issuer_words.specs.Words.{IsLocal, overlay, reply_of, rows_after_one};
ghost use Rattle.issuer_view.specs.Words.{AgreesWithBook};

use crate::look_ahead::LookAhead;
use issuer_rows::{Book, CardPlaces, Frame, Places, ReplyBody};
use issuer_view::{Execution, ReadSet, Stop, WriteSet};
use std::alloc::{AllocError, Global};

/// The first bodies of a batch, decided: how many they are, the book after them, and their replies.
#[derive(Drop)]
pub struct Prefix {
    /// How many bodies are decided.
    pub count: u32,
    /// The book after them.
    pub book: Book,
    /// Their replies, in the order of arrival.
    pub replies: Vec<ReplyBody>,
    // Where the rows of the book's cards were found last.
    cards: CardPlaces,
}

impl Prefix {
    /// A prefix of no body, on this book.
    pub fn new(alloc: Global, book: Book) -> Prefix
        ensures count { result.count ≡ 0 }
        ensures book { result.book ≡ book }
        ensures replies { result.replies.items ≡ [] }
    {
        Prefix::of(alloc, 0, book, Vec::new(alloc))
    }

    /// So many bodies are decided, with this book after them, and with these replies.
    pub fn of(alloc: Global, count: u32, book: Book, replies: Vec<ReplyBody>) -> Prefix
        ensures count { result.count ≡ count }
        ensures book { result.book ≡ book }
        ensures replies { result.replies.items ≡ replies.items }
    {
        Prefix {
            count,
            book,
            replies,
            cards: CardPlaces::new(alloc),
        }
    }

    /// Makes room for the rows of so many more bodies. Where they are many for the book, the rows of its cards are found at once. It
    /// fails only where memory runs out; the prefix is the same either way.
    pub fn make_ready(&mut self, bodies: usize) -> Result<(), AllocError>
        ensures count { self.new.count ≡ self.old.count }
        ensures book { self.new.book ≡ self.old.book }
        ensures replies { self.new.replies.items ≡ self.old.replies.items }
    {
        self.book.reserve(bodies)?;
        self.cards.find_if_few(&self.book, bodies)
    }

    /// Where the rows may stand that the body at this index asks for: a hint alone. Those of the bodies behind it are looked at ahead.
    #[inline(always)]
    pub fn places_at(&self, frames: &[Frame], index: usize, ahead: &mut LookAhead) -> Places {
        ahead.places_at(&self.cards, &self.book, frames, index)
    }

    /// Where the rows may stand that a body asks for: a hint alone.
    pub fn places_of(&self, frame: &Frame) -> Places {
        self.cards.places_of(frame)
    }

    /// One more body, as it was executed: its reply, and the rows that it writes, each where it was found. It fails only where memory
    /// runs out, and nothing is changed then.
    pub fn extend(&mut self, execution: &Execution, places: &mut Places) -> Result<(), AllocError>
        requires { self.old.count + 1 < 2 ^ 32 }
        ensures count { OnOk result (self.new.count ≡ self.old.count + 1) }
        ensures book { OnOk result (self.new.book ≡ overlay self.old.book execution.now.writes) }
        ensures replies { OnOk result (self.new.replies.items ≡ self.old.replies.items ++ execution.now.reply ∷ []) }
        ensures kept { OnErr result ((self.new.count ≡ self.old.count) × (self.new.book ≡ self.old.book) × (self.new.replies.items ≡ self.old.replies.items)) }
    {
        self.replies.reserve(1)?;
        self.book.put_all(execution.writes(), places)?;
        push_copy(&mut self.replies, execution.reply());
        self.cards.note(execution.frame(), places);
        self.count += 1;
        Ok(())
    }

    // One more body, as it was decided by rows that are those of the book. After an error nothing is changed. What was read is for the
    // clauses alone.
    pub(crate) fn append(
        &mut self,
        frame: &Frame,
        decided: &Result<ReplyBody, Stop>,
        reads: &ReadSet,
        writes: &WriteSet,
        places: &mut Places,
    ) -> Result<(), AllocError>
        requires room { self.old.count + 1 < 2 ^ 32 }
        requires local { IfOk decided.now (λ reply. IsLocal frame.now reads.now writes.now reply) }
        requires agrees { AgreesWithBook (Some self.old.book) reads.now }
        requires stops { IfErr decided.now (λ stop. stop ≡ Stop.OutOfMemory) }
        ensures count { OnOk result (self.new.count ≡ self.old.count + 1) }
        ensures book { OnOk result (self.new.book ≡ rows_after_one self.old.book frame.now) }
        ensures replies { OnOk result (self.new.replies.items ≡ self.old.replies.items ++ reply_of self.old.book frame.now ∷ []) }
        ensures read { OnOk result (AgreesWithBook (Some self.old.book) reads.now) }
        ensures local { OnOk result (IsLocal frame.now reads.now writes.now (reply_of self.old.book frame.now)) }
        ensures kept { OnErr result ((self.new.count ≡ self.old.count) × (self.new.book ≡ self.old.book) × (self.new.replies.items ≡ self.old.replies.items)) }
    {
        let _ = reads;
        match decided {
            Ok(reply) => {
                self.replies.reserve(1)?;
                self.book.put_all(writes, places)?;
                push_copy(&mut self.replies, reply);
                self.cards.note(frame, places);
                self.count += 1;
                Ok(())
            }
            Err(Stop::OutOfMemory) => Err(AllocError),
            Err(_) => unreachable!(),
        }
    }
}

// Appends a copy of an item to a list that has room for it.
fn push_copy<T: Copy>(items: &mut Vec<T>, item: &T)
    requires { vec_len items.old < vec_capacity items.old }
    ensures { items.new.items ≡ items.old.items ++ item.now ∷ [] }
{
    items.push_reserved(*item);
}
