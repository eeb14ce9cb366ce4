//! Block files that are not decided whole: which blocks are kept.

use crate::blocks::serial::{Came, decided};
use crate::blocks::texts::{CUT, TOO_MANY, TWO_REPLIES, TWO_REQUESTS};
use file_batch::BatchFault;
use file_devices::{FailingSink, FailingSource, IntoWrite};
use issuer_rows::Book;
use std::alloc::Global;
use std::test::Fail;
use test_fixtures::{first_book_with, has_row};

// The first book's account A, and what is left of it behind an approved request of 1.00, and of 60.00.
const FULL: &str = "account A 10000 978";

const LESS_ONE: &str = "account A 9900 978";

const LESS_SIXTY: &str = "account A 4000 978";

// Why no further block is decided, how many are kept, and a row of the book after them.
#[derive(Clone, Copy)]
struct ExpectedHalt {
    fault: BatchFault,
    kept: u32,
    row: &'static str,
}

fn stop_of(fault: BatchFault, kept: u32, row: &'static str) -> ExpectedHalt {
    ExpectedHalt { fault, kept, row }
}

fn is_halted(came: &Came, stop: ExpectedHalt) -> bool {
    came.fault == Some(stop.fault) && came.kept == stop.kept && has_row(&came.book, stop.row)
}

// Whether the file is halted so, behind so many bytes of replies.
fn file_halts(alloc: Global, book: &Book, file: &[u8], stop: ExpectedHalt, length: usize) -> bool {
    let mut source = file;
    let mut sink = IntoWrite::new(Vec::new(alloc));
    match decided(alloc, book, &mut source, &mut sink) {
        Ok(came) => is_halted(&came, stop) && sink.writer().len() == length,
        Err(_) => false,
    }
}

// Whether two requests are halted so by a source that fails behind so many bytes, and by this beginning of their replies.
fn source_halts(
    alloc: Global,
    book: &Book,
    answers: u64,
    stop: ExpectedHalt,
    length: usize,
) -> bool {
    let Some(front) = TWO_REPLIES.get(..length) else {
        return false;
    };
    let mut source = FailingSource::new(TWO_REQUESTS, 1, answers);
    let mut sink = FailingSink::new(alloc, 1, 226);
    match decided(alloc, book, &mut source, &mut sink) {
        Ok(came) => is_halted(&came, stop) && sink.taken() == front,
        Err(_) => false,
    }
}

// Whether the file is halted so by a sink that fails behind so many bytes, which are a beginning of these replies.
fn sink_halts(
    alloc: Global,
    book: &Book,
    file: &[u8],
    answers: usize,
    stop: ExpectedHalt,
    replies: Option<&[u8]>,
) -> bool {
    let mut source = file;
    let mut sink = FailingSink::new(alloc, 1, answers as u64);
    match decided(alloc, book, &mut source, &mut sink) {
        Ok(came) => {
            is_halted(&came, stop)
                && sink.taken().len() == answers
                && replies.unwrap_or(sink.taken()).starts_with(sink.taken())
        }
        Err(_) => false,
    }
}

// A block that is cut is not kept, and neither is one whose replies are not out; too many blocks are refused.
#[test]
fn a_block_that_is_not_whole_is_not_kept(rt: HostRuntime) -> Result<(), Fail> {
    let alloc = rt.alloc();
    let book = first_book_with(alloc, &[])?;
    let cut = stop_of(BatchFault::Ended, 1, LESS_ONE);
    assert!(rt; file_halts(alloc, &book, CUT, cut, 121));
    let full = stop_of(BatchFault::Device, 0, FULL);
    assert!(rt; sink_halts(alloc, &book, CUT, 60, full, None));
    let many = stop_of(BatchFault::Blocks, 0, FULL);
    assert!(rt; file_halts(alloc, &book, TOO_MANY, many, 0));
    Ok(())
}

// The head is there behind 10 bytes, and a block behind each 104 more; its replies are written before more is read. The last call is to
// find the end.
#[test]
fn a_source_that_fails_keeps_the_blocks_before_it(rt: HostRuntime) -> Result<(), Fail> {
    let book = first_book_with(rt.alloc(), &[])?;
    assert!(rt; TWO_REQUESTS.len() == 218 && TWO_REPLIES.len() == 226);
    for answers in 0..219u64 {
        let (kept, put, row) = match answers {
            0..=9 => (0, 0, FULL),
            10..=113 => (0, 10, FULL),
            114..=217 => (1, 121, LESS_SIXTY),
            _ => (2, 226, LESS_SIXTY),
        };
        let stop = stop_of(BatchFault::Device, kept, row);
        assert!(rt;
            source_halts(rt.alloc(), &book, answers, stop, put),
            "{answers}"
        );
    }
    Ok(())
}

// The replies of the first block are out behind 121 bytes, and those of the second behind 226.
#[test]
fn a_sink_that_fails_keeps_the_blocks_whose_replies_it_has(rt: HostRuntime) -> Result<(), Fail> {
    let book = first_book_with(rt.alloc(), &[])?;
    for answers in 0..226usize {
        let stop = if answers < 121 {
            stop_of(BatchFault::Device, 0, FULL)
        } else {
            stop_of(BatchFault::Device, 1, LESS_SIXTY)
        };
        let replies = Some(TWO_REPLIES);
        assert!(rt;
            sink_halts(rt.alloc(), &book, TWO_REQUESTS, answers, stop, replies),
            "{answers}"
        );
    }
    Ok(())
}
