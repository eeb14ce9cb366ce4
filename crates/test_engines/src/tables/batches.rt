//! Whole batches, one message after another.

use issuer_fold::Prefix;
use issuer_rows::Frame;
use issuer_rules::decide_all;
use std::alloc::Global;
use std::process::Abort;
use test_fixtures::{
    advice_rules, first_wrong, frames, laws, opening, request_rules, reversal_rules,
    unchecked_rules, worked,
};

// The bodies decided on the batch's book, one after another.
pub(crate) fn decided(alloc: Global, batch: &str, frames: &[Frame]) -> Option<Prefix> {
    let opening = Prefix::new(alloc, opening(alloc, batch)?);
    if frames.len() <= 64 && opening.count == 0 {
        decide_all(alloc, opening, frames).ok()
    } else {
        None
    }
}

// The first line of the batch that is not so, if the bodies are these.
fn wrong_of<'a>(alloc: Global, batch: &'a str, frames: &[Frame]) -> Option<&'a str> {
    match decided(alloc, batch, frames) {
        Some(after) => first_wrong(alloc, batch, &after.replies, &after.book),
        None => Some("its book, and room"),
    }
}

fn assert_batches(rt: &impl Abort, alloc: Global, batches: &str) {
    for batch in batches.split("\n\n") {
        let frames = frames(alloc, batch).expect(rt, "bodies");
        let wrong = wrong_of(alloc, batch, &frames);
        assert!(rt; wrong.is_none(), "{wrong:?} of {batch}");
    }
}

// Those that were worked out by hand, those by each rule, those of the laws, and those on books that `check_book` refuses.
#[test]
fn decides_the_batches(rt: HostRuntime) {
    assert_batches(&rt, rt.alloc(), worked());
    assert_batches(&rt, rt.alloc(), request_rules());
    assert_batches(&rt, rt.alloc(), advice_rules());
    assert_batches(&rt, rt.alloc(), reversal_rules());
    assert_batches(&rt, rt.alloc(), laws());
    assert_batches(&rt, rt.alloc(), unchecked_rules());
}
