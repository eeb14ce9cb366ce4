//! Books and replies of parts, by hand, and put together again.

use engine_parts::plan_parts;
use issuer_fold::{Prefix, decide_all_by};
use issuer_rows::{Book, Frame, ReplyBody};
use issuer_rules::Shipped;
use parts_books::{join_books, join_replies, part_book, part_books, rest_book};
use std::alloc::Global;
use std::process::Abort;
use std::test::Fail;
use test_fixtures::{
    advice_rules, answer_text, frames, has_row, laws, opening, request_rules, reversal_rules,
    worked,
};

// Card A's account paid for 000009. Card B sends that identity once more, while A spends: two parts.
const BATCH: &str =
    "put approved 000009 A 100 000001 A\nput day A 260109 1 100\nbody 1100 000001 A 100\nbody 1100 000009 B 100\nbody 1100 000003 A 100";

const PARTS: &[u32] = &[0, 1, 0];

fn assert_rows<R: Abort>(rt: &R, book: &Book, rows: &[&str]) {
    for row in rows {
        let is_there = has_row(book, row);
        assert!(rt; is_there, "{row}");
    }
    let count = book.len();
    assert!(rt; count == rows.len(), "{count} rows");
}

// Where the row of each message is, what is lent, and what is left: the day is of no message, and accounts are in the rest, too.
#[test]
fn parts_have_their_rows(rt: HostRuntime) -> Result<(), Fail> {
    let alloc = rt.alloc();
    let book = opening(alloc, BATCH).ok_or("a book")?;
    let bodies = frames(alloc, BATCH)?;
    if bodies.len() != PARTS.len() {
        return Err(Fail::new("bodies"));
    }
    let first = part_book(alloc, &book, &bodies, PARTS, 0)?;
    let second = part_book(alloc, &book, &bodies, PARTS, 1)?;
    let rest = rest_book(alloc, &book, &bodies)?;
    assert_rows(
        &rt,
        &first,
        &["card A 2812 active 0 3 20000 A -", "account A 10000 978"],
    );
    assert_rows(
        &rt,
        &second,
        &[
            "approved 000009 A 100 000001 A",
            "card B 2812 active 0 3 20000 B -",
            "account B 500 978",
            "account A 10000 978",
        ],
    );
    assert_rows(
        &rt,
        &rest,
        &[
            "day A 260109 1 100",
            "account A 10000 978",
            "account B 500 978",
        ],
    );
    Ok(())
}

// The messages of a part.
fn own(alloc: Global, bodies: &[Frame], parts: &[u32], part: u32) -> Result<Vec<Frame>, Fail> {
    let mut own = Vec::new(alloc);
    for index in 0..bodies.len().min(parts.len()) {
        if parts[index] == part {
            own.push(bodies[index])?;
        }
    }
    Ok(own)
}

// What messages come to, one after another.
fn decided(alloc: Global, book: Book, bodies: &[Frame]) -> Result<(Vec<ReplyBody>, Book), Fail> {
    if bodies.len() > 64 {
        return Err(Fail::new("a short batch"));
    }
    let after = decide_all_by(alloc, Prefix::new(alloc, book), bodies, &Shipped)?;
    Ok((after.replies, after.book))
}

// What the parts come to, each decided alone and put together.
fn joined(
    alloc: Global,
    book: &Book,
    bodies: &[Frame],
    parts: &[u32],
    count: u32,
) -> Result<(Vec<ReplyBody>, Book), Fail> {
    if bodies.len() != parts.len() {
        return Err(Fail::new("a part for each message"));
    }
    let mut replies = Vec::new(alloc);
    let mut books = Vec::new(alloc);
    let mut part = 0u32;
    for before in part_books(alloc, book, bodies, parts, count)? {
        let (mine, after) = decided(alloc, before, &own(alloc, bodies, parts, part)?)?;
        replies.push(mine)?;
        books.push(after)?;
        part = part.saturating_add(1);
    }
    let rest = rest_book(alloc, book, bodies)?;
    let whole = join_books(&rest, &books)?;
    match join_replies(alloc, parts, &replies)? {
        Some(all) => Ok((all, whole)),
        None => Err(Fail::new("a reply for each message")),
    }
}

// By hand: two approvals of 100 from account A, between them a duplicate of the other part.
#[test]
fn joins_two_parts(rt: HostRuntime) -> Result<(), Fail> {
    let alloc = rt.alloc();
    let book = opening(alloc, BATCH).ok_or("a book")?;
    let bodies = frames(alloc, BATCH)?;
    let (replies, whole) = joined(alloc, &book, &bodies, PARTS, 2)?;
    let mut told = String::new(alloc);
    for reply in &replies {
        told.push_str(answer_text(alloc, reply)?.as_str())?;
        told.push_str(";")?;
    }
    assert!(&rt; told.as_str() == "000/000001;913;000/000002;", "{told}");
    assert!(&rt; has_row(&whole, "account A 9800 978"));
    assert!(&rt; has_row(&whole, "account B 500 978"));
    assert!(&rt; has_row(&whole, "day A 260109 1 100"));
    Ok(())
}

/// Whether these are the same replies.
pub(crate) fn are_same(mine: &[ReplyBody], theirs: &[ReplyBody]) -> bool {
    if mine.len() != theirs.len() {
        return false;
    }
    for index in 0..mine.len() {
        if !mine[index].is_same(&theirs[index]) {
            return false;
        }
    }
    true
}

// Whether a batch in at most so many parts comes to what it comes to one after another.
fn came_alike(alloc: Global, batch: &str, most: u32) -> Result<bool, Fail> {
    let book = opening(alloc, batch).ok_or("a book")?;
    let bodies = frames(alloc, batch)?;
    let plan = plan_parts(alloc, &book, &bodies, most.max(1))?;
    let (replies, whole) = joined(alloc, &book, &bodies, plan.parts(), plan.count())?;
    let (all, after) = decided(alloc, book, &bodies)?;
    Ok(are_same(&replies, &all) && whole.is_same(&after))
}

fn assert_batches<R: Abort>(rt: &R, alloc: Global, batches: &str) -> Result<(), Fail> {
    for batch in batches.split("\n\n") {
        for most in [1u32, 2, 3, 64] {
            let alike = came_alike(alloc, batch, most)?;
            assert!(rt; alike, "{most}: {batch}");
        }
    }
    Ok(())
}

#[test]
fn joins_batches(rt: HostRuntime) -> Result<(), Fail> {
    assert_batches(&rt, rt.alloc(), BATCH)?;
    assert_batches(&rt, rt.alloc(), worked())?;
    assert_batches(&rt, rt.alloc(), request_rules())?;
    assert_batches(&rt, rt.alloc(), advice_rules())?;
    assert_batches(&rt, rt.alloc(), reversal_rules())?;
    assert_batches(&rt, rt.alloc(), laws())
}

// The replies of parts 0 and 1 of the batch above, with a message more or fewer than the parts say.
#[test]
fn refuses_other_replies(rt: HostRuntime) -> Result<(), Fail> {
    let alloc = rt.alloc();
    let book = opening(alloc, BATCH).ok_or("a book")?;
    let bodies = frames(alloc, BATCH)?;
    let mut replies = Vec::new(alloc);
    for part in 0u32..2 {
        let (mine, _) = decided(alloc, book.copy()?, &own(alloc, &bodies, PARTS, part)?)?;
        replies.push(mine)?;
    }
    for parts in [
        &[0u32, 1] as &[u32],
        &[0, 1, 0, 1],
        &[0, 0, 0],
        &[0, 1, 2],
        &[0, 1, 0, 2],
    ] {
        let is_none = join_replies(alloc, parts, &replies)?.is_none();
        assert!(&rt; is_none, "{parts:?}");
    }
    let is_some = join_replies(alloc, &[0, 0, 1], &replies)?.is_some();
    assert!(&rt; is_some, "another order");
    Ok(())
}
