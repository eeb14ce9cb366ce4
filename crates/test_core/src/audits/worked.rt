//! A batch that was worked out by hand: 60.00, 60.00, the first taken back, 60.00.

ghost use Rattle.std.specs.Prelude.{◌≤◌, length};

use issuer_fold::Prefix;
use issuer_rows::{Book, Frame, ReplyBody};
use issuer_rules::decide_all;
use std::alloc::{AllocError, Global};
use std::test::Fail;
use test_fixtures::{body, first_book_with, with_rows};

// The bodies.
const BODIES: &[&str] = &[
    "1100 000001 A 6000",
    "1100 000002 A 6000",
    "1420 000003 A 6000 request=000001",
    "1100 000004 A 6000",
];

// The rows that they write, beside those of the first book.
const AFTER: &[&str] = &[
    "account A 4000 978",
    "card A 2812 active 2 3 20000 A -",
    "day A 260110 1 6000",
    "approved 000001 A 6000 000001 A 000003 0",
    "declined 000002 A 6000 116 -",
    "approved 000004 A 6000 000002 A",
];

// The book before the bodies, their frames, the right replies, and the book after them.
#[derive(Drop)]
pub(crate) struct Worked {
    pub book: Book,
    pub frames: Vec<Frame>,
    pub replies: Vec<ReplyBody>,
    pub after: Book,
}

pub(crate) fn right(alloc: Global) -> Result<Worked, Fail> {
    let frames = frames(alloc)?;
    if frames.len() != 4 {
        return Err(Fail::new("four bodies"));
    }
    let replies = replies_to(alloc, &frames)?;
    let book = first_book_with(alloc, &[])?;
    let after = book_after(alloc, &[])?;
    Ok(Worked {
        book,
        frames,
        replies,
        after,
    })
}

// The frames of the bodies; a line that is none is left out.
fn frames(alloc: Global) -> Result<Vec<Frame>, AllocError> {
    BODIES.iter().filter_map(|line| body(line)).collect(alloc)
}

fn replies_to(alloc: Global, frames: &[Frame]) -> Result<Vec<ReplyBody>, Fail>
    requires { length frames.now ≤ 65536 }
{
    let prefix = Prefix::new(alloc, first_book_with(alloc, &[])?);
    Ok(decide_all(alloc, prefix, frames)?.replies)
}

// The book after them, with these rows written over it.
pub(crate) fn book_after(alloc: Global, changes: &[&str]) -> Result<Book, Fail> {
    with_rows(first_book_with(alloc, AFTER)?, changes)
}
