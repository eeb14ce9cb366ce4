//! Scripts played on a core: each call is answered as its line says.

use crate::calls::CallContext;
use crate::scripts::{CoreScript, OF_100, scripts};
use issuer_fold::Prefix;
use issuer_rows::{Book, Frame};
use std::alloc::{AllocError, Global};
use std::process::Abort;
use std::test::Fail;
use stm_core::Core;
use stm_core_laws::Limits;
use test_fixtures::{first_book_with, first_wrong, frames};

// A core in which none of the requests was decided.
fn open(
    alloc: Global,
    book: &Book,
    frames: &[Frame; 3],
    limits: Option<Limits>,
) -> Result<Core, AllocError> {
    match limits {
        Some(limits) => Core::with_limits(alloc, book, frames, limits),
        None => Core::new(alloc, book, frames),
    }
}

// The first line that is answered otherwise.
fn unmet(stage: &CallContext, core: &mut Core, script: &CoreScript) -> Option<&'static str> {
    for calls in script.calls {
        for line in calls.lines() {
            if !stage.is_answered(core, line) {
                return Some(line);
            }
        }
    }
    None
}

// Whether all three messages are committed, with the answers and the book that the batch states, if it does.
fn is_committed(alloc: Global, core: Core, batch: &str) -> bool {
    match core.into_prefix(alloc) {
        Ok(prefix) => prefix.count == 3
            && first_wrong(alloc, batch, &prefix.replies, &prefix.book).is_none(),
        Err(_) => false,
    }
}

// The three requests.
fn frames_of(alloc: Global, batch: &str) -> Option<[Frame; 3]> {
    let frames = frames(alloc, batch).ok()?;
    <[Frame; 3]>::try_from(frames.as_slice()).ok()
}

fn assert_played(rt: &impl Abort, alloc: Global, book: &Book, script: &CoreScript) {
    let frames = frames_of(alloc, script.batch).expect(rt, "three requests");
    let mut core = open(alloc, book, &frames, script.limits).expect(rt, "room");
    let stage = CallContext {
        alloc,
        book,
        frames: &frames,
    };
    let unmet = unmet(&stage, &mut core, script);
    assert!(rt; unmet.is_none(), "{unmet:?}: {}", script.batch);
    let is_told = script.batch.contains("\nrows ");
    assert!(rt;
        !is_told || is_committed(alloc, core, script.batch),
        "{}",
        script.batch
    );
}

#[test]
fn each_schedule(rt: HostRuntime) -> Result<(), Fail> {
    let book = first_book_with(rt.alloc(), &[])?;
    for script in scripts() {
        assert_played(&rt, rt.alloc(), &book, script);
    }
    Ok(())
}

// Whether a core of this book distinguishes the other one, and other frames, from its own.
fn are_told_apart(alloc: Global, book: &Book, other: &Book) -> Option<bool> {
    let frames = frames_of(alloc, OF_100)?;
    let core = Core::new(alloc, book, &frames).ok()?;
    let is_other = core.opened_with(other, &frames) | core.opened_with(book, &frames[..2]);
    Some(!is_other)
}

#[test]
fn opened_with_another_book_or_other_frames(rt: HostRuntime) -> Result<(), Fail> {
    let book = first_book_with(rt.alloc(), &[])?;
    let other = first_book_with(rt.alloc(), &["account A 9900 978"])?;
    assert!(rt; are_told_apart(rt.alloc(), &book, &other) == Some(true));
    Ok(())
}
