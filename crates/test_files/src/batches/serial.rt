//! Batch files that are decided one body after another, in both ways.

use file_batch::{BatchFault, decide_in_order, put_all, read_batch, write_replies};
use file_devices::{Sink, Source};
use issuer_fold::Prefix;
use issuer_rows::Book;
use issuer_rules::{Shipped, decide_all};
use std::alloc::Global;
use std::sync::Wait;
use std::thread::Threads;

// How a batch is read and decided.
#[derive(Clone, Copy, Debug)]
pub(crate) enum Way {
    // It is read whole and then decided.
    Whole,
    // It is decided while it is read.
    InOrder,
}

pub(crate) const WAYS: [Way; 2] = [Way::Whole, Way::InOrder];

// Reads a batch file, decides its bodies one after another and writes the reply file: the book after them.
pub(crate) fn process_serially<T: Threads + Wait + Sync, R: Source, W: Sink>(
    rt: &T,
    alloc: Global,
    way: Way,
    book: &Book,
    source: &mut R,
    sink: &mut W,
) -> Result<Book, BatchFault> {
    match way {
        Way::Whole => process_whole(alloc, book, source, sink),
        Way::InOrder => process_while_reading(rt, alloc, book, source, sink),
    }
}

fn process_whole<R: Source, W: Sink>(
    alloc: Global,
    book: &Book,
    source: &mut R,
    sink: &mut W,
) -> Result<Book, BatchFault> {
    let frames = read_batch(alloc, source)?;
    let after = decide_all(alloc, Prefix::new(alloc, book.copy()?), &frames)?;
    write_replies(alloc, &after.replies, sink)?;
    Ok(after.book)
}

fn process_while_reading<T: Threads + Wait + Sync, R: Source, W: Sink>(
    rt: &T,
    alloc: Global,
    book: &Book,
    source: &mut R,
    sink: &mut W,
) -> Result<Book, BatchFault> {
    let book = book.copy()?;
    let answered = match decide_in_order(rt, alloc, book, source, &Shipped) {
        Ok(answered) => answered,
        Err(fault) => return Err(fault),
    };
    match put_all(sink, &answered.text) {
        Ok(()) => Ok(answered.decided.book),
        Err(fault) => Err(fault),
    }
}
