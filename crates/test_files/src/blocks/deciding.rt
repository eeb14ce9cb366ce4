//! Block files that are decided whole, and read back.

use crate::blocks::serial::{Came, decided};
use crate::blocks::texts::{
    EMPTY, EMPTY_REPLIES, REQUEST_AND_REVERSAL, TWO_REPLIES, TWO_REQUESTS, thousand_requests,
};
use file_blocks::{read_block_replies, read_blocks};
use file_devices::IntoWrite;
use issuer_rows::{Book, Frame, ReplyBody};
use std::alloc::Global;
use std::test::Fail;
use test_fixtures::{answer_text, first_book_with, has_row};

// A block file, what its blocks of one body are answered, and a row of the book after them. Behind these answers each one is 123,
// since three requests a day are approved.
#[derive(Clone, Copy)]
struct DecidedBlocks<'a> {
    file: &'a [u8],
    blocks: u32,
    answers: &'a [&'a str],
    row: &'a str,
}

// Whether it is decided so.
fn holds(alloc: Global, book: &Book, case: &DecidedBlocks<'_>, replies: Option<&[u8]>) -> bool {
    let mut source = case.file;
    let mut sink = IntoWrite::new(Vec::new(alloc));
    match decided(alloc, book, &mut source, &mut sink) {
        Ok(came) => {
            is_whole(book, case, &came)
                && replies.unwrap_or(sink.writer()) == sink.writer().as_slice()
                && has_answers(alloc, case, sink.writer())
                && has_blocks(alloc, case)
        }
        Err(_) => false,
    }
}

// Whether all blocks are kept, and the row is in the book. Without blocks it is the old one.
fn is_whole(book: &Book, case: &DecidedBlocks<'_>, came: &Came) -> bool {
    came.fault.is_none()
        && came.kept == case.blocks
        && has_row(&came.book, case.row)
        && (case.blocks > 0 || came.book.is_same(book))
}

// Whether the replies are read as one a block, which say so.
fn has_answers(alloc: Global, case: &DecidedBlocks<'_>, replies: &[u8]) -> bool {
    let mut source = replies;
    match read_block_replies(alloc, &mut source) {
        Ok(blocks) => are_answers(alloc, case, &blocks),
        Err(_) => false,
    }
}

fn are_answers(alloc: Global, case: &DecidedBlocks<'_>, blocks: &[Vec<ReplyBody>]) -> bool {
    for (index, block) in blocks.iter().enumerate() {
        let answer = case.answers.get(index).copied().unwrap_or("123");
        if !is_answer(alloc, block, answer) {
            return false;
        }
    }
    blocks.len() == case.blocks as usize
}

fn is_answer(alloc: Global, block: &[ReplyBody], answer: &str) -> bool {
    let [reply] = block else {
        return false;
    };
    match answer_text(alloc, reply) {
        Ok(text) => text.as_str() == answer,
        Err(_) => false,
    }
}

// Whether the file is read as so many blocks of one body.
fn has_blocks(alloc: Global, case: &DecidedBlocks<'_>) -> bool {
    let mut source = case.file;
    match read_blocks(alloc, &mut source) {
        Ok(blocks) => are_single(&blocks) && blocks.len() == case.blocks as usize,
        Err(_) => false,
    }
}

fn are_single(blocks: &[Vec<Frame>]) -> bool {
    for block in blocks {
        if block.len() != 1 {
            return false;
        }
    }
    true
}

// No block is a file; a block is decided on the book after those before it, and takes back what another spent. Each with its
// replies, where they are compared.
const DECIDED: &[(DecidedBlocks<'static>, Option<&[u8]>)] = &[
    (
        DecidedBlocks {
            file: EMPTY,
            blocks: 0,
            answers: &[],
            row: "account A 10000 978",
        },
        Some(EMPTY_REPLIES),
    ),
    (
        DecidedBlocks {
            file: TWO_REQUESTS,
            blocks: 2,
            answers: &["000/000001", "116"],
            row: "account A 4000 978",
        },
        Some(TWO_REPLIES),
    ),
    (
        DecidedBlocks {
            file: REQUEST_AND_REVERSAL,
            blocks: 2,
            answers: &["000/000001", "400"],
            row: "account A 10000 978",
        },
        None,
    ),
];

#[test]
fn blocks_are_decided_and_read_back(rt: HostRuntime) -> Result<(), Fail> {
    let book = first_book_with(rt.alloc(), &[])?;
    for (case, replies) in DECIDED {
        assert!(rt; holds(rt.alloc(), &book, case, *replies), "{}", case.row);
    }
    Ok(())
}

#[test]
fn a_thousand_blocks_are_decided(rt: HostRuntime) -> Result<(), Fail> {
    let book = first_book_with(rt.alloc(), &[])?;
    let file = thousand_requests(rt.alloc()).expect(&rt, "room");
    let case = DecidedBlocks {
        file: &file,
        blocks: 1000,
        answers: &["000/000001", "000/000002", "000/000003"],
        row: "account A 9997 978",
    };
    assert!(rt; holds(rt.alloc(), &book, &case, None));
    Ok(())
}
