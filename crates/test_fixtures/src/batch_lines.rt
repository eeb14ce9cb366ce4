//! Batches as lines, an empty line between two of them.
//!
//! `# NAME` begins a batch on the first book and says what it shows. `put ROW` writes a row over that book. `body LINE = ANSWER` is the
//! next body with its answer. `has ROW` is a row of the book after them, and `rows N`, the last line, is how many it then has.

use crate::answers::is_answer;
use crate::body_lines::body;
use crate::books::{FIRST_BOOK, are_put, has_row, is_put};
use crate::values::number;
use issuer_rows::{Book, Frame, ReplyBody};
use std::alloc::{AllocError, Global};
use std::slice::Iter;

/// The book before the first body.
pub fn opening(alloc: Global, batch: &str) -> Option<Book> {
    let mut book = Book::new(alloc);
    if are_put(&mut book, FIRST_BOOK) && is_opened(&mut book, batch) {
        Some(book)
    } else {
        None
    }
}

// Writes the batch's rows.
fn is_opened(book: &mut Book, batch: &str) -> bool {
    for line in batch.lines() {
        let is_done = match line.strip_prefix("put ") {
            Some(row) => is_put(book, row),
            None => true,
        };
        if !is_done {
            return false;
        }
    }
    true
}

/// The bodies; a line that is none is left out, so that its answer is one too many.
pub fn frames(alloc: Global, batch: &str) -> Result<Vec<Frame>, AllocError> {
    batch.lines().filter_map(frame).collect(alloc)
}

// The body of a line, with or without an answer.
fn frame(line: &str) -> Option<Frame> {
    let told = line.strip_prefix("body ")?;
    match told.split_once(" = ") {
        Some((line, _)) => body(line),
        None => body(told),
    }
}

/// The first line of the batch that isn't so, of these replies and this book after it.
pub fn first_wrong<'a>(
    alloc: Global,
    batch: &'a str,
    replies: &[ReplyBody],
    book: &Book,
) -> Option<&'a str> {
    let mut left = replies.iter();
    for line in batch.lines() {
        if !is_so(alloc, &mut left, book, line) {
            return Some(line);
        }
    }
    if batch.contains("\nrows ") {
        None
    } else {
        Some("rows")
    }
}

fn is_so(alloc: Global, left: &mut Iter<'_, ReplyBody>, book: &Book, line: &str) -> bool {
    let Some((kind, told)) = line.split_once(' ') else {
        return false;
    };
    match kind {
        "#" | "put" => true,
        "body" => is_next(alloc, left, told),
        "has" => has_row(book, told),
        "rows" => left.len() == 0 && has_as_many(book, told),
        _ => false,
    }
}

fn has_as_many(book: &Book, rows: &str) -> bool {
    number(rows).is_some_and(|rows| rows == book.len() as u64)
}

fn is_next(alloc: Global, left: &mut Iter<'_, ReplyBody>, told: &str) -> bool {
    match (left.next(), told.split_once(" = ")) {
        (Some(reply), Some((_, answer))) => is_answer(alloc, reply, answer),
        _ => false,
    }
}
