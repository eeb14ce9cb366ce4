//! Block files that are decided on a book, one body after another.

ghost use Rattle.file_blocks.specs.BlockDecider.{DecidesInPlace};

use file_batch::BatchFault;
use file_blocks::process_blocks;
use file_devices::{Sink, Source};
use issuer_fold::{InPlace, decide_in_place};
use issuer_rows::{Book, Frame};
use issuer_rules::Shipped;
use std::alloc::{AllocError, Global};

// How many blocks are kept, the book after them, and why no further one is.
#[derive(Drop)]
pub(crate) struct Came {
    pub kept: u32,
    pub book: Book,
    pub fault: Option<BatchFault>,
}

// Decides the block file on the book and writes the replies.
pub(crate) fn decided<R: Source, W: Sink>(
    alloc: Global,
    book: &Book,
    source: &mut R,
    sink: &mut W,
) -> Result<Came, AllocError> {
    let decide = |book: &mut Book, frames: &[Frame]| -> Result<InPlace, AllocError>
        ensures { DecidesInPlace book.entry.now frames.entry.now book.exit.now result }
    { decide_in_place(alloc, book, frames, &Shipped) };
    match process_blocks(alloc, book.copy()?, source, sink, &decide) {
        Ok(outcome) => Ok(Came {
            kept: outcome.blocks,
            book: outcome.book,
            fault: None,
        }),
        Err(halted) => Ok(Came {
            kept: halted.blocks,
            book: halted.book,
            fault: Some(halted.fault),
        }),
    }
}
