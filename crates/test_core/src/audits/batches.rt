//! Audits of a batch.

use crate::audits::worked::{Worked, book_after, right};
use app_audit::{Audit, audit, audit_text};
use issuer_rows::{Book, ReplyBody};
use std::alloc::Global;
use std::test::Fail;

// Whether the audit of the worked batch with these replies and this book after it prints so.
fn says(alloc: Global, worked: &Worked, replies: &[ReplyBody], after: &Book, text: &str) -> bool {
    if worked.frames.len() > 64 {
        return false;
    }
    match audit(alloc, &worked.book, &worked.frames, replies, after) {
        Ok(found) => {
            matches!(found, Audit::Same) == (text == "same") && is_printed(alloc, &found, text)
        }
        Err(_) => false,
    }
}

fn is_printed(alloc: Global, found: &Audit, text: &str) -> bool {
    match audit_text(alloc, found) {
        Ok(printed) => printed.as_slice() == text.as_bytes(),
        Err(_) => false,
    }
}

// Whether it does with the right replies, and with these rows written over the right book.
fn says_with(alloc: Global, worked: &Worked, changes: &[&str], text: &str) -> Result<bool, Fail> {
    let after = book_after(alloc, changes)?;
    Ok(says(alloc, worked, &worked.replies, &after, text))
}

// Rows that are written over the right book, and what the audit prints: the least row that differs is named. The last one is a mark in
// place of what was kept.
const CHANGES: &[(&[&str], &str)] = &[
    (&[], "same"),
    (
        &["account A 4001 978"],
        "row acct:34313131313130303030303030303035 differs",
    ),
    (
        &["account A 4001 978", "day A 260110 1 5999"],
        "row day:4111110000000005:260110 differs",
    ),
    (&["budget 411111 direct 1 1"], "row budget:411111 differs"),
    (
        &["ahead 000002 A request 000003"],
        "row orig:123456:000002:260110120000 differs",
    ),
];

// The first of these texts that is not printed; then that of a reply too few, and of the book before the batch in place of the one
// after it.
fn first_wrong(alloc: Global, worked: &Worked) -> Result<Option<&'static str>, Fail> {
    for (changes, text) in CHANGES {
        if !says_with(alloc, worked, changes, text)? {
            return Ok(Some(text));
        }
    }
    let fewer = worked.replies.get(..3).unwrap_or(&worked.replies);
    if !says(alloc, worked, fewer, &worked.after, "count differs") {
        return Ok(Some("count differs"));
    }
    let row = "row card:4111110000000005 differs";
    if !says(alloc, worked, &worked.replies, &worked.book, row) {
        return Ok(Some(row));
    }
    Ok(None)
}

fn wrong(alloc: Global) -> Result<Option<&'static str>, Fail> {
    let worked = right(alloc)?;
    first_wrong(alloc, &worked)
}

#[test]
fn what_differs_first_is_named(rt: HostRuntime) -> Result<(), Fail> {
    let wrong = wrong(rt.alloc())?;
    assert!(rt; wrong.is_none(), "{wrong:?}");
    Ok(())
}
