ghost use Rattle.std.specs.Prelude.{◌≡◌, ◌⊎◌, ◌||◌, [], IfOk, IfErr, IsTrue, OnOk};
ghost use Rattle.file_laws.specs.BatchFault.{failed_at};
ghost use Rattle.file_blocks.specs.BlockDecider.{IsBlockDecider};
ghost use Rattle.file_blocks.specs.Blocks.{AreAllDecided, StopsBefore, StopsInHead, StopsInBlocks};

use crate::kept_blocks::KeptBlocks;
use file_batch::BodyCount;
use file_devices::{Sink, Source};
use file_laws::BatchFault;
use issuer_fold::InPlace;
use issuer_rows::{Book, Frame};
use std::alloc::{AllocError, Global};

/// What deciding all blocks of a block file came to.
#[derive(Drop)]
pub struct BlocksOutcome {
    /// How many blocks it has.
    pub blocks: u32,
    /// How many bodies they have together, and how many of them are no message.
    pub messages: BodyCount,
    /// The book after all of them.
    pub book: Book,
}

/// Why not all blocks were decided and answered, and what is kept.
#[derive(Drop)]
pub struct Halted {
    /// How many blocks are kept: those whose replies were written whole.
    pub blocks: u32,
    /// The book after these.
    pub book: Book,
    /// Why no further block is kept.
    pub fault: BatchFault,
}

/// Reads a block file, decides each block on the book after those before it, and writes each block's replies before the next is read.
/// `decide` has to change the book into the one after the block, or, where memory runs out, to leave it. The
/// block file is `I83M`, version 1, the number of blocks, at most 1,000, and for each block its count and its bodies as in a batch; the
/// replies are `I83T` and the like. A fault while the head is read leaves the sink as it was. One while a block is read or decided leaves
/// the head and the replies of the kept blocks. One while writing leaves a beginning of the text. A byte after the last block is
/// `Trailing`, with all blocks kept. `Device` is the fault exactly where a call of the source or of the sink failed.
pub fn process_blocks<
    R: Source,
    W: Sink,
    E: Fn(&mut Book, &[Frame]) -> Result<InPlace, AllocError>,
>(
    alloc: Global,
    book: Book,
    source: &mut R,
    sink: &mut W,
    decide: &E,
) -> Result<BlocksOutcome, Halted>
    // It may be called with a block, and decides it in place.
    requires decider { IsBlockDecider E.pre E.post (λ book. book.now) (λ frames. frames.now) decide.now }
    ensures none_failed { OnOk result ((R.has_failed source.new || W.has_failed sink.new) ≡ (R.has_failed source.old || W.has_failed sink.old)) }
    ensures failed { IfErr result (λ halted.
        (R.has_failed source.new || W.has_failed sink.new) ≡ failed_at halted.fault (R.has_failed source.old || W.has_failed sink.old)) }
    ensures device { IfErr result (λ halted. halted.fault ≡ BatchFault.Device → R.may_fail source.old ⊎ W.may_fail sink.old) }
    ensures known { W.is_known sink.old → W.is_known sink.new }
    ensures end { OnOk result (R.is_known source.old → R.remaining source.new ≡ []) }
    ensures ok { IfOk result (λ outcome. AreAllDecided book outcome.book outcome.blocks outcome.messages
        (R.is_known source.old) (R.remaining source.old) (W.is_known sink.old) (W.written sink.old) (W.written sink.new)) }
    // A fault before the own head, in it, or behind it.
    ensures halted { IfErr result (λ halted.
        StopsBefore book halted.book halted.blocks (R.is_known source.old) (R.remaining source.old) halted.fault (sink.new ≡ sink.old)
        ⊎ (StopsInHead book halted.book halted.blocks (R.is_known source.old) (R.remaining source.old)
        (W.is_known sink.old) (W.written sink.old) (W.written sink.new) (IsTrue (W.has_failed sink.new) × W.may_fail sink.old)
        ⊎ StopsInBlocks book halted.book halted.blocks (R.is_known source.old) (R.remaining source.old)
        (W.is_known sink.old) (W.written sink.old) (W.written sink.new) halted.fault (IsTrue (W.has_failed sink.new) × W.may_fail sink.old))) }
{
    let mut kept = KeptBlocks {
        blocks: 0,
        messages: BodyCount::none(),
        book,
    };
    let processed = kept.process(alloc, source, sink, decide);
    let KeptBlocks {
        blocks,
        messages,
        book,
    } = kept;
    match processed {
        Ok(()) => Ok(BlocksOutcome {
            blocks,
            messages,
            book,
        }),
        Err(fault) => Err(Halted {
            blocks,
            book,
            fault,
        }),
    }
}
