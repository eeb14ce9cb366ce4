ghost use Rattle.std.specs.Prelude.{◌≡◌, ◌≤◌, ◌<◌, ◌+◌, ◌∷◌, [], ◌++◌, length, List, OnOk};
ghost use Rattle.issuer_rows.specs.declared.frame.Frame.{Frame};
ghost use Rattle.file_batch.specs.Counting.{count_of};
ghost use Rattle.file_laws.specs.Frames.{AreFramesOf};
ghost use Rattle.log_replay.specs.Answering.{AnswersBlock, Finishes, IsCounted, Takes, taken};
ghost use Rattle.log_replay.specs.Writing.{Writes};

use crate::block_writing::write_block;
use crate::copying::push_copy;
use crate::replay_fault::ReplayFault;
use file_batch::BodyCount;
use file_devices::Sink;
use file_laws::frame_of;
use issuer_fold::Prefix;
use issuer_rows::{Book, Frame};
use issuer_view::Decide;
use log_file::Bodies;
use std::alloc::Global;

// How many messages a block has.
const FULL: usize = 65_536;

/// Messages that are decided block by block, and whose replies are written then.
#[derive(Drop)]
pub(crate) struct Answering {
    /// The book after those that were decided.
    pub(crate) prefix: Prefix,
    /// Those that wait until their block is full.
    pub(crate) block: Vec<Frame>,
    /// How many were decided.
    pub(crate) count: BodyCount,
}

impl Answering {
    /// Nothing is decided on this book yet.
    pub(crate) fn new(alloc: Global, book: Book) -> Answering
        ensures book { result.prefix.book ≡ book }
        ensures block { result.block.items ≡ [] }
        ensures count { result.count ≡ count_of [] }
    {
        Answering {
            prefix: Prefix::new(alloc, book),
            block: Vec::new(alloc),
            count: BodyCount::none(),
        }
    }

    /// How many were taken.
    pub(crate) fn taken(&self) -> u32
        requires { taken self.now ≤ 65536000 }
        ensures { result ≡ taken self.now }
    {
        self.count.bodies + self.block.len() as u32
    }

    // Decides the messages of the block under way, and writes their replies.
    fn answer<W: Sink, D: Decide>(
        &mut self,
        alloc: Global,
        sink: &mut W,
        decision: &D,
    ) -> Result<(), ReplayFault>
        requires few { taken self.old ≤ 65536000 }
        requires size { length self.old.block.items ≤ 65536 }
        requires unreadable { self.old.count.unreadable ≤ self.old.count.bodies }
        ensures sink { Writes W.is_known W.may_fail sink.old sink.new result }
        ensures answers { OnOk result (AnswersBlock self.old self.new (W.is_known sink.old) (W.written sink.old) (W.written sink.new)) }
        ensures counted { OnOk result (IsCounted self.new) }
        ensures taken { OnOk result (taken self.new ≡ taken self.old) }
    {
        self.prefix.count = 0;
        self.prefix.replies.clear();
        self.prefix.decide_each(alloc, &self.block, decision)?;
        write_block(alloc, &self.prefix.replies, sink)?;
        self.count = self.count.plus(BodyCount::of(&self.block));
        self.block.clear();
        Ok(())
    }

    // Takes one message more. Where its block is full, it is answered.
    fn take<W: Sink, D: Decide>(
        &mut self,
        alloc: Global,
        frame: &Frame,
        sink: &mut W,
        decision: &D,
    ) -> Result<(), ReplayFault>
        requires few { taken self.old < 65536000 }
        requires counted { IsCounted self.old }
        ensures sink { Writes W.is_known W.may_fail sink.old sink.new result }
        ensures takes { OnOk result (Takes self.old self.new (frame.now ∷ []) (W.is_known sink.old) (W.written sink.old) (W.written sink.new)) }
        ensures counted { OnOk result (IsCounted self.new) }
        ensures taken { OnOk result (taken self.new ≡ taken self.old + 1) }
    {
        push_copy(&mut self.block, frame)?;
        if self.block.len() < FULL {
            return Ok(());
        }
        self.answer(alloc, sink, decision)
    }

    /// Takes the messages that these bodies spell.
    pub(crate) fn take_bodies<W: Sink, D: Decide>(
        &mut self,
        alloc: Global,
        bodies: &Bodies,
        sink: &mut W,
        decision: &D,
    ) -> Result<(), ReplayFault>
        requires few { taken self.old + length bodies.now ≤ 65536000 }
        requires counted { IsCounted self.old }
        ensures sink { Writes W.is_known W.may_fail sink.old sink.new result }
        ensures takes { OnOk result ((more : List Frame) × AreFramesOf bodies.now more
            × Takes self.old self.new more (W.is_known sink.old) (W.written sink.old) (W.written sink.new)) }
        ensures counted { OnOk result (IsCounted self.new) }
        ensures taken { OnOk result (taken self.new ≡ taken self.old + length bodies.now) }
    {
        let mut left = bodies.iter();
        for _ in 0..bodies.len() {
            let Some(body) = left.next() else {
                unreachable!();
            };
            let frame = frame_of(body);
            self.take(alloc, &frame, sink, decision)?;
        }
        Ok(())
    }

    /// Answers the last block, where it has a message.
    pub(crate) fn finish<W: Sink, D: Decide>(
        &mut self,
        alloc: Global,
        sink: &mut W,
        decision: &D,
    ) -> Result<(), ReplayFault>
        requires few { taken self.old ≤ 65536000 }
        requires counted { IsCounted self.old }
        ensures sink { Writes W.is_known W.may_fail sink.old sink.new result }
        ensures finishes { OnOk result (Finishes self.old self.new (W.is_known sink.old) (W.written sink.old) (W.written sink.new)) }
    {
        if self.block.is_empty() {
            return Ok(());
        }
        self.answer(alloc, sink, decision)
    }
}
