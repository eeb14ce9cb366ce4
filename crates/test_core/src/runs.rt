//! The journals of runs on threads.

use engine_locked::run_traced;
use engine_workers::{Hook, NoHook, Workers};
use issuer_fold::{Prefix, RunOutcome};
use issuer_rows::{Book, Frame, ReplyBody};
use issuer_rules::Shipped;
use std::alloc::Global;
use std::sync::atomic::{AtomicU64, Ordering};
use std::test::Fail;
use std::thread;
use stm_journal::{Entry, Event, replay};
use test_fixtures::{answer_text, body, first_book_with};

// How often a thread looks whether another made progress, before the test fails.
const TURNS: u64 = 50_000_000;

// Holds the first message before its first decision until the second one was recorded.
#[derive(Drop)]
struct PausingHook {
    recorded: AtomicU64,
}

impl Hook for PausingHook {
    fn before_decide(&self, index: u32, incarnation: u32) {
        if index == 0 && incarnation == 0 {
            for _ in 0..TURNS {
                if self.recorded.load(Ordering::SeqCst) > 0 {
                    return;
                }
                thread::yield_now();
            }
        }
    }

    fn after_record(&self, index: u32, _incarnation: u32) {
        if index == 1 {
            self.recorded.fetch_add(1, Ordering::SeqCst);
        }
    }
}

// Two requests, one on each card.
fn two_cards() -> Option<[Frame; 2]> {
    Some([body("1100 000001 A 100")?, body("1100 000002 B 100")?])
}

// Where in the journal the message at this index first finishes.
fn finish_of(entries: &[Entry], index: u32) -> Option<usize> {
    for (place, entry) in entries.iter().enumerate() {
        if matches!(entry.event, Event::Finish(version) if version.index == index) {
            return Some(place);
        }
    }
    None
}

// Where in the journal the first message is committed.
fn first_commit(entries: &[Entry]) -> Option<usize> {
    for (place, entry) in entries.iter().enumerate() {
        if matches!(entry.event, Event::Commit) {
            return Some(place);
        }
    }
    None
}

// Whether both are there, one before the other.
fn is_before(first: Option<usize>, second: Option<usize>) -> bool {
    match (first, second) {
        (Some(first), Some(second)) => first < second,
        _ => false,
    }
}

// Whether both replies have the same action and approval code.
fn are_same(alloc: Global, first: &ReplyBody, second: &ReplyBody) -> bool {
    match (answer_text(alloc, first), answer_text(alloc, second)) {
        (Ok(first), Ok(second)) => first.as_str() == second.as_str(),
        _ => false,
    }
}

// Whether the run came to the same two replies, and to the same book.
fn is_outcome(alloc: Global, prefix: &Prefix, outcome: &RunOutcome) -> bool {
    prefix.count == outcome.committed
        && outcome.committed == 2
        && prefix.replies.len() == 2
        && outcome.replies.len() == 2
        && are_same(alloc, &prefix.replies[0], &outcome.replies[0])
        && are_same(alloc, &prefix.replies[1], &outcome.replies[1])
        && prefix.book.is_same(&outcome.book)
}

// Whether the journal plays to a core that committed what the run did.
fn replays(
    alloc: Global,
    book: &Book,
    frames: &[Frame; 2],
    outcome: &RunOutcome,
    entries: &[Entry],
) -> bool {
    let Ok(core) = replay(alloc, book, frames, entries) else {
        return false;
    };
    match core.into_prefix(alloc) {
        Ok(prefix) => is_outcome(alloc, &prefix, outcome),
        Err(_) => false,
    }
}

// The second message finishes before the first one does, and the journal says so.
#[test]
fn the_journal_has_the_order_of_finishing(rt: HostRuntime) -> Result<(), Fail> {
    let book = first_book_with(rt.alloc(), &[])?;
    let frames = two_cards().expect(&rt, "two requests");
    let workers = Workers::new(2).expect(&rt, "two workers");
    let hook = PausingHook {
        recorded: AtomicU64::new(0),
    };
    let run = run_traced(&rt, rt.alloc(), &book, &frames, workers, &Shipped, &hook);
    let (outcome, entries) = run.expect(&rt, "room");
    let is_in_order = is_before(finish_of(&entries, 1), finish_of(&entries, 0));
    assert!(rt; is_in_order & replays(rt.alloc(), &book, &frames, &outcome, &entries));
    Ok(())
}

// A worker commits as it goes: the first message is committed before the last one finishes, and not by the caller behind all turns.
#[test]
fn a_worker_commits_as_it_goes(rt: HostRuntime) -> Result<(), Fail> {
    let book = first_book_with(rt.alloc(), &[])?;
    let frames = two_cards().expect(&rt, "two requests");
    let worker = Workers::new(1).expect(&rt, "one worker");
    let run = run_traced(&rt, rt.alloc(), &book, &frames, worker, &Shipped, &NoHook);
    let (outcome, entries) = run.expect(&rt, "room");
    let is_in_order = is_before(first_commit(&entries), finish_of(&entries, 1));
    assert!(rt; is_in_order & replays(rt.alloc(), &book, &frames, &outcome, &entries));
    Ok(())
}
