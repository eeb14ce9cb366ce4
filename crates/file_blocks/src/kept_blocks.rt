ghost use Rattle.std.specs.Prelude.{◌≡◌, ◌⊎◌, ◌+◌, ◌<◌, ◌≤◌, ◌^◌, ◌++◌, [], length, OnOk, OnErr, IfErr, IsTrue, Err};
ghost use Rattle.issuer_words.specs.Words.{Frame, replies_to, rows_after};
ghost use Rattle.file_batch.specs.Words.{AreReplyBodies, block_at, block_replies_magic, block_text, head_text, is_of_bytes};
ghost use Rattle.file_batch.specs.Device.{UsesDevice, UsesDevices};
ghost use Rattle.file_blocks.specs.BlockDecider.{IsBlockDecider};
ghost use Rattle.file_blocks.specs.Blocks.{AreDecided, AreAllDecided, BeginsBlock, StopsBehind, StopsBefore, StopsInHead, StopsInBlocks, IsAnswered, HasRoom, IsWithinBlock};
ghost use Rattle.file_batch.specs.Counting.{count_of, plus};
ghost use Rattle.file_batch.specs.Writing.{AppendsPart};
ghost use Rattle.file_batch.specs.Window.{ahead};

use crate::blocks::{read_block, read_block_head, write_block};
use file_batch::{BodyCount, Window, add_head, put_all};
use file_devices::{Sink, Source};
use file_laws::BatchFault;
use issuer_fold::InPlace;
use issuer_rows::{Book, Frame};
use std::alloc::{AllocError, Global};

/// The blocks whose replies were written whole.
#[derive(Drop)]
pub(crate) struct KeptBlocks {
    /// How many they are.
    pub(crate) blocks: u32,
    /// How many bodies they have, and how many of them are no message.
    pub(crate) messages: BodyCount,
    /// The book after them.
    pub(crate) book: Book,
}

// Writes the head of the replies. Its text is made before the first byte is written.
fn write_head<W: Sink>(alloc: Global, count: u32, sink: &mut W) -> Result<(), BatchFault>
    ensures device { UsesDevice W.is_known W.has_failed W.may_fail sink.old sink.new result }
    ensures ok { OnOk result (W.is_known sink.old → W.written sink.new ≡ W.written sink.old ++ head_text block_replies_magic count) }
    ensures err { OnErr result ((sink.new ≡ sink.old) ⊎ ((IsTrue (W.has_failed sink.new) × W.may_fail sink.old)
        × (W.is_known sink.old → AppendsPart (W.written sink.old) (W.written sink.new) (head_text block_replies_magic count)))) }
    ensures fault { IfErr result (λ e. ¬ IsTrue (is_of_bytes e)) }
{
    let mut out = Vec::new(alloc);
    add_head(&mut out, b"I83T", count)?;
    put_all(sink, &out)
}

impl KeptBlocks {
    // Keeps a block of these bodies, after which the book is and whose replies were written.
    fn keep(&mut self, frames: &[Frame])
        requires count { length frames.now ≤ 65536 }
        requires blocks { self.old.blocks + 1 < 2 ^ 32 }
        requires room { HasRoom self.old.messages }
        ensures blocks { self.new.blocks ≡ self.old.blocks + 1 }
        ensures messages { self.new.messages ≡ plus self.old.messages (count_of frames.now) }
        ensures within { IsWithinBlock self.old.messages self.new.messages }
        ensures book { self.new.book ≡ self.old.book }
    {
        self.blocks += 1;
        self.messages = self.messages.plus(BodyCount::of(frames));
    }

    // Decides a block on the book and writes its replies. After a fault what is kept is as it was, the book too.
    fn answer<W: Sink, E: Fn(&mut Book, &[Frame]) -> Result<InPlace, AllocError>>(
        &mut self,
        alloc: Global,
        frames: &[Frame],
        sink: &mut W,
        decide: &E,
    ) -> Result<(), BatchFault>
        requires count { length frames.now ≤ 65536 }
        requires blocks { self.old.blocks + 1 < 2 ^ 32 }
        requires room { HasRoom self.old.messages }
        requires decider { IsBlockDecider E.pre E.post (λ book. book.now) (λ frames. frames.now) decide.now }
        ensures device { UsesDevice W.is_known W.has_failed W.may_fail sink.old sink.new result }
        ensures number { OnOk result (self.new.blocks ≡ self.old.blocks + 1) }
        ensures all { OnOk result (self.new.messages ≡ plus self.old.messages (count_of frames.now)) }
        ensures within { OnOk result (IsWithinBlock self.old.messages self.new.messages) }
        ensures book { OnOk result (self.new.book ≡ rows_after self.old.book frames.now) }
        ensures put { OnOk result (W.is_known sink.old → W.written sink.new ≡ W.written sink.old ++ block_text (replies_to self.old.book frames.now)) }
        ensures bodies { OnOk result (AreReplyBodies (replies_to self.old.book frames.now)) }
        ensures kept { OnErr result (self.new ≡ self.old) }
        ensures fault { IfErr result (λ e. ¬ IsTrue (is_of_bytes e)) }
        ensures err { OnErr result ((sink.new ≡ sink.old) ⊎ ((IsTrue (W.has_failed sink.new) × W.may_fail sink.old)
            × (W.is_known sink.old → AppendsPart (W.written sink.old) (W.written sink.new) (block_text (replies_to self.old.book frames.now))))) }
    {
        let decided = decide(&mut self.book, frames)?;
        match write_block(alloc, &decided.replies, sink) {
            Ok(()) => {
                self.keep(frames);
                Ok(())
            }
            Err(fault) => {
                decided.formers.give_back(&mut self.book);
                Err(fault)
            }
        }
    }

    // Reads a block, decides it on the book and writes its replies. After a fault what is kept is as it was.
    fn step<R: Source, W: Sink, E: Fn(&mut Book, &[Frame]) -> Result<InPlace, AllocError>>(
        &mut self,
        alloc: Global,
        window: &mut Window,
        source: &mut R,
        sink: &mut W,
        decide: &E,
    ) -> Result<(), BatchFault>
        requires blocks { self.old.blocks + 1 < 2 ^ 32 }
        requires room { HasRoom self.old.messages }
        requires decider { IsBlockDecider E.pre E.post (λ book. book.now) (λ frames. frames.now) decide.now }
        ensures devices { UsesDevices R.is_known R.has_failed R.may_fail W.is_known W.has_failed W.may_fail source.old source.new sink.old sink.new result }
        ensures within { OnOk result (IsWithinBlock self.old.messages self.new.messages) }
        ensures ok { OnOk result (IsAnswered self.old self.new (R.is_known source.old)
            (ahead window.old (R.remaining source.old)) (ahead window.new (R.remaining source.new))
            (W.is_known sink.old) (W.written sink.old) (W.written sink.new)) }
        ensures kept { OnErr result (self.new ≡ self.old) }
        ensures fault { IfErr result (λ e. R.is_known source.old → IsTrue (is_of_bytes e) → block_at (ahead window.old (R.remaining source.old)) ≡ Err e) }
        ensures err { OnErr result ((sink.new ≡ sink.old) ⊎ BeginsBlock self.old.book (R.is_known source.old) (ahead window.old (R.remaining source.old))
            (W.is_known sink.old) (W.written sink.old) (W.written sink.new) (IsTrue (W.has_failed sink.new) × W.may_fail sink.old)) }
    {
        let frames = read_block(window, alloc, source)?;
        self.answer(alloc, &frames, sink, decide)
    }

    // Decides so many blocks, one after another, each on the book after those before it, and writes each one's replies before the next is
    // read.
    fn decide_blocks<R: Source, W: Sink, E: Fn(&mut Book, &[Frame]) -> Result<InPlace, AllocError>>(
        &mut self,
        alloc: Global,
        window: &mut Window,
        source: &mut R,
        sink: &mut W,
        decide: &E,
        count: u32,
    ) -> Result<(), BatchFault>
        requires none { (self.old.blocks ≡ 0) × (self.old.messages ≡ count_of []) }
        requires most { count ≤ 1000 }
        requires decider { IsBlockDecider E.pre E.post (λ book. book.now) (λ frames. frames.now) decide.now }
        ensures devices { UsesDevices R.is_known R.has_failed R.may_fail W.is_known W.has_failed W.may_fail source.old source.new sink.old sink.new result }
        ensures all { OnOk result (self.new.blocks ≡ count) }
        ensures ok { OnOk result (AreDecided self.old.book self.new.book self.new.blocks self.new.messages
            (R.is_known source.old) (ahead window.old (R.remaining source.old)) (ahead window.new (R.remaining source.new))
            (W.is_known sink.old) (W.written sink.old) (W.written sink.new)) }
        ensures err { IfErr result (λ e. StopsBehind count self.old.book self.new.book self.new.blocks
            (R.is_known source.old) (ahead window.old (R.remaining source.old))
            (W.is_known sink.old) (W.written sink.old) (W.written sink.new) e (IsTrue (W.has_failed sink.new) × W.may_fail sink.old)) }
    {
        for _ in 0..count {
            self.step(alloc, window, source, sink, decide)?;
        }
        Ok(())
    }

    /// Reads a block file, and decides and answers one block after another. Its own head is written once the input's is read.
    pub(crate) fn process<
        R: Source,
        W: Sink,
        E: Fn(&mut Book, &[Frame]) -> Result<InPlace, AllocError>,
    >(&mut self, alloc: Global, source: &mut R, sink: &mut W, decide: &E) -> Result<(), BatchFault>
        requires none { (self.old.blocks ≡ 0) × (self.old.messages ≡ count_of []) }
        requires decider { IsBlockDecider E.pre E.post (λ book. book.now) (λ frames. frames.now) decide.now }
        ensures devices { UsesDevices R.is_known R.has_failed R.may_fail W.is_known W.has_failed W.may_fail source.old source.new sink.old sink.new result }
        ensures end { OnOk result (R.is_known source.old → R.remaining source.new ≡ []) }
        ensures ok { OnOk result (AreAllDecided self.old.book self.new.book self.new.blocks self.new.messages
            (R.is_known source.old) (R.remaining source.old) (W.is_known sink.old) (W.written sink.old) (W.written sink.new)) }
        ensures err { IfErr result (λ e.
            StopsBefore self.old.book self.new.book self.new.blocks (R.is_known source.old) (R.remaining source.old) e (sink.new ≡ sink.old)
            ⊎ (StopsInHead self.old.book self.new.book self.new.blocks (R.is_known source.old) (R.remaining source.old)
            (W.is_known sink.old) (W.written sink.old) (W.written sink.new) (IsTrue (W.has_failed sink.new) × W.may_fail sink.old)
            ⊎ StopsInBlocks self.old.book self.new.book self.new.blocks (R.is_known source.old) (R.remaining source.old)
            (W.is_known sink.old) (W.written sink.old) (W.written sink.new) e (IsTrue (W.has_failed sink.new) × W.may_fail sink.old))) }
    {
        let mut window = Window::new(alloc)?;
        let count = read_block_head(&mut window, source, b"I83M")?;
        write_head(alloc, count, sink)?;
        self.decide_blocks(alloc, &mut window, source, sink, decide, count)?;
        window.read_end(source)?;
        Ok(())
    }
}
