//! The serial answer beside its batches: the longest one, a prefix that is gone on with, and a book as a source.

use crate::tables::answers::begin_with;
use issuer_fold::{PlainRows, Prefix, decide_all_by};
use issuer_rows::{Book, Frame, Places, RowKey};
use issuer_rules::{Shipped, decide_all};
use issuer_view::{RowSource, execute};
use std::alloc::Global;
use std::test::Fail;
use test_fixtures::{body, count_of, first_book_with, has_row, requests};

// Whether three requests of the longest batch are approved, and then the day's limit is reached.
fn is_longest(alloc: Global, after: &Prefix) -> bool {
    begin_with(
        alloc,
        &after.replies,
        &["000/000001", "000/000002", "000/000003"],
    ) & (count_of(alloc, &after.replies, "123") == 65_533)
        & has_row(&after.book, "account A 9997 978")
}

#[test]
fn decides_the_longest_batch(rt: HostRuntime) -> Result<(), Fail> {
    let opening = Prefix::new(rt.alloc(), first_book_with(rt.alloc(), &[])?);
    let frames = requests(rt.alloc(), 65_536)?;
    assert!(rt; frames.len() == 65_536 && opening.count == 0);
    let after = decide_all(rt.alloc(), opening, &frames).expect(&rt, "room");
    assert!(rt; is_longest(rt.alloc(), &after));
    Ok(())
}

fn frames() -> Option<[Frame; 3]> {
    Some([
        body("1100 000001 A 6000")?,
        body("bad")?,
        body("1100 000002 A 4000")?,
    ])
}

// A batch with a body that is no message, in two parts.
#[test]
fn goes_on_after_a_prefix(rt: HostRuntime) -> Result<(), Fail> {
    let opening = Prefix::new(rt.alloc(), first_book_with(rt.alloc(), &[])?);
    let frames = frames().expect(&rt, "bodies");
    assert!(rt; opening.count == 0);
    let first = decide_all(rt.alloc(), opening, &frames[..1]).expect(&rt, "room");
    assert!(rt; first.count == 1);
    let after = decide_all_by(rt.alloc(), first, &frames, &Shipped).expect(&rt, "room");
    let answers = ["000/000001", "F08000", "000/000002"];
    let are_answers = begin_with(rt.alloc(), &after.replies, &answers);
    assert!(rt; are_answers & has_row(&after.book, "account A 0 978"));
    Ok(())
}

// Whether the source answers what the book has, a card and no account of that name.
fn answers_of(book: &Book) -> Option<bool> {
    let there = RowKey::Card(test_fixtures::pan("A")?);
    let absent = RowKey::Account(test_fixtures::account("NONE")?);
    let mut source = PlainRows::new(book);
    let card = source.read(&there).ok()??;
    let again = source.read(&there).ok()?;
    let none = source.read(&absent).ok()?;
    Some(card.is_same(&book.get(&there)?) & again.is_some() & none.is_none())
}

#[test]
fn a_book_is_a_source(rt: HostRuntime) -> Result<(), Fail> {
    let book = first_book_with(rt.alloc(), &[])?;
    assert!(rt; answers_of(&book) == Some(true));
    Ok(())
}

// A copy of the book, with the rows of the body's decision written to it.
fn book_after(alloc: Global, book: &Book, line: &str) -> Option<Book> {
    let frame = body(line)?;
    let execution = execute(alloc, &frame, PlainRows::new(book), &Shipped).ok()?;
    let mut after = Prefix::new(alloc, book.copy().ok()?);
    after.extend(&execution, &mut Places::new()).ok()?;
    Some(after.book)
}

// Whether the rows of a decision are written to a copy of its book, and the book itself stays.
fn puts_apart(alloc: Global, book: &Book) -> Option<bool> {
    let after = book_after(alloc, book, "1100 000001 A 6000")?;
    let has_rows = has_row(&after, "account A 4000 978") & has_row(book, "account A 10000 978");
    Some(has_rows & (after.len() == 6) & (book.len() == 4))
}

#[test]
fn puts_what_was_decided(rt: HostRuntime) -> Result<(), Fail> {
    let book = first_book_with(rt.alloc(), &[])?;
    assert!(rt; puts_apart(rt.alloc(), &book) == Some(true));
    Ok(())
}
