use crate::decoding::read_frames;
use crate::tally::Tally;
use issuer_fold::Prefix;
use issuer_rows::{Book, Frame, ReplyBody};
use issuer_view::Decide;
use log_file::Bodies;
use std::alloc::{AllocError, Global};

/// A book in memory on which messages are decided in place, and the replies to those that were decided last. What deciding costs is what
/// the messages touch, and not what the book has.
#[derive(Drop)]
pub struct Decider {
    pub(crate) prefix: Prefix,
    // The messages that were read last.
    frames: Vec<Frame>,
    tally: Tally,
}

impl Decider {
    ghost use Rattle.std.specs.Prelude.{◌≡◌, List, OnOk};
    ghost use Rattle.issuer_rows.specs.declared.frame.Frame.{Frame};
    ghost use Rattle.host_serving.specs.Entries.{AreMessagesOf};
    ghost use Rattle.file_laws.specs.Frames.{AreFramesOf};
    ghost use Rattle.host_serving.specs.Deciding.{Decides, Follows};
    ghost use Rattle.host_serving.specs.Tally.{counted};

    /// Nothing is decided on this book yet.
    pub fn new(alloc: Global, book: Book) -> Decider
        ensures book { result.prefix.book ≡ book }
        ensures none { result.tally ≡ record { bodies = 0; unreadable = 0 } }
    {
        Decider {
            prefix: Prefix::new(alloc, book),
            frames: Vec::new(alloc),
            tally: Tally {
                bodies: 0,
                unreadable: 0,
            },
        }
    }

    /// The book after all that was decided.
    pub fn book(&self) -> &Book
        ensures { result.now ≡ self.now.prefix.book }
    {
        &self.prefix.book
    }

    /// How many bodies came, and how many of them are no message.
    pub fn tally(&self) -> Tally
        ensures { result ≡ self.now.tally }
    {
        self.tally
    }

    /// The messages that were decided last, and the faults of bodies among them that are none.
    pub fn frames(&self) -> &[Frame]
        ensures { result.now ≡ self.now.frames.items }
    {
        &self.frames
    }

    /// The replies to the messages that were decided last.
    pub fn replies(&self) -> &[ReplyBody]
        ensures { result.now ≡ self.now.prefix.replies.items }
    {
        &self.prefix.replies
    }

    /// Decides the messages of these bodies, one after another, by any local decision: the book is the one after them, and these are
    /// their replies. It fails only where memory runs out, and the book is of no use then.
    pub fn decide<F: Decide>(
        &mut self,
        alloc: Global,
        bodies: &Bodies,
        decision: &F,
    ) -> Result<(), AllocError>
        ensures decided { OnOk result (Decides bodies.now self.old self.new) }
        ensures frames { OnOk result (AreFramesOf bodies.now self.new.frames.items) }
        ensures tally { OnOk result (self.new.tally ≡ counted self.old.tally self.new.frames.items) }
    {
        read_frames(bodies, &mut self.frames)?;
        let _count = bodies.len();
        self.prefix.count = 0;
        self.prefix.replies.clear();
        self.prefix.decide_each(alloc, &self.frames, decision)?;
        self.tally.add(&self.frames);
        Ok(())
    }

    /// Decides the messages of the entries of a log again, in order: the book is the one after the log then. It fails only where memory
    /// runs out, and the book is of no use then.
    pub fn replay<F: Decide>(
        &mut self,
        alloc: Global,
        entries: &[Bodies],
        decision: &F,
    ) -> Result<(), AllocError>
        ensures { OnOk result ((messages : List Frame) × AreMessagesOf entries.now messages × Follows self.old self.new messages) }
    {
        for bodies in entries {
            self.decide(alloc, bodies, decision)?;
        }
        Ok(())
    }
}
