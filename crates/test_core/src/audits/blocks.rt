//! Audits of blocks.

use crate::audits::worked::{Worked, book_after, right};
use app_audit::{BlockAudit, audit_blocks, block_audit_text};
use issuer_rows::{Book, Frame, ReplyBody};
use std::alloc::{AllocError, Global};
use std::test::Fail;

// The frames or the replies of the worked batch in two blocks, of three and of one.
fn in_blocks<T: Copy>(alloc: Global, all: &[T]) -> Result<Vec<Vec<T>>, AllocError> {
    let (first, second) = all.split_at(all.len().min(3));
    let mut blocks = Vec::new(alloc);
    blocks.push(Vec::from_slice(alloc, first)?)?;
    blocks.push(Vec::from_slice(alloc, second)?)?;
    Ok(blocks)
}

// Whether the audit of the blocks with these replies and this book after them prints so.
fn says(
    alloc: Global,
    book: &Book,
    blocks: &[Vec<Frame>],
    replies: &[Vec<ReplyBody>],
    after: &Book,
    text: &str,
) -> bool {
    if blocks.len() > 2 || !blocks.iter().all(|block| block.len() <= 64) {
        return false;
    }
    match audit_blocks(alloc, book, blocks, replies, after) {
        Ok(found) => is_printed(alloc, &found, text),
        Err(_) => false,
    }
}

fn is_printed(alloc: Global, found: &BlockAudit, text: &str) -> bool {
    match block_audit_text(alloc, found) {
        Ok(printed) => printed.as_slice() == text.as_bytes(),
        Err(_) => false,
    }
}

// Whether it does for the worked batch in blocks, with the right replies and this book after it.
fn says_in_blocks(
    alloc: Global,
    worked: &Worked,
    after: &Book,
    text: &str,
) -> Result<bool, AllocError> {
    let blocks = in_blocks(alloc, &worked.frames)?;
    let replies = in_blocks(alloc, &worked.replies)?;
    Ok(says(alloc, &worked.book, &blocks, &replies, after, text))
}

// Whether it does with these rows written over the right book.
fn says_with(alloc: Global, worked: &Worked, changes: &[&str], text: &str) -> Result<bool, Fail> {
    let after = book_after(alloc, changes)?;
    Ok(says_in_blocks(alloc, worked, &after, text)?)
}

// Rows that are written over the right book, and what the audit prints: a row is named behind all blocks.
const CHANGES: &[(&[&str], &str)] = &[
    (&[], "same"),
    (
        &["day A 260110 2 6000"],
        "row day:4111110000000005:260110 differs",
    ),
];

// The first of these texts that is not printed.
fn first_wrong(alloc: Global, worked: &Worked) -> Result<Option<&'static str>, Fail> {
    for (changes, text) in CHANGES {
        if !says_with(alloc, worked, changes, text)? {
            return Ok(Some(text));
        }
    }
    Ok(None)
}

fn wrong(alloc: Global) -> Result<Option<&'static str>, Fail> {
    let worked = right(alloc)?;
    first_wrong(alloc, &worked)
}

#[test]
fn a_row_is_named_behind_all_blocks(rt: HostRuntime) -> Result<(), Fail> {
    let wrong = wrong(rt.alloc())?;
    assert!(rt; wrong.is_none(), "{wrong:?}");
    Ok(())
}
