//! How batches fall into parts. No clause says that a batch has as many parts as it may.

use engine_parts::plan_parts;
use std::alloc::Global;
use std::process::Abort;
use test_fixtures::{frames, opening};

// Batches on the first book, in which cards A and B have an account each, and how many parts each falls into.
const PLANS: &[(&str, u32)] = &[
    // Nothing is decided.
    ("", 1),
    // Cards that share nothing.
    ("body 1100 000001 A 100\nbody 1100 000002 B 100", 2),
    (
        "body 1100 000001 A 100\nbody 1120 000002 B 100\nbody 1100 000003 A 100",
        2,
    ),
    // A reversal of a request of its card.
    (
        "body 1100 000001 A 100\nbody 1420 000002 B 100 request=000003\nbody 1100 000004 B 100",
        2,
    ),
    // One identity on two cards.
    ("body 1100 000001 A 100\nbody 1100 000001 B 100", 1),
    // A reversal under another card than its original.
    (
        "body 1100 000001 A 100\nbody 1420 000002 B 100 request=000001",
        1,
    ),
    // A reversal of an original that is kept, which the other card's account paid for.
    (
        "put approved 000009 A 100 000001 A\nbody 1420 000002 B 100 request=000009\nbody 1100 000001 A 100",
        1,
    ),
    // The same where a budget paid, that no longer is.
    (
        "put approved 000009 A 100 000001 budget\nbody 1420 000002 B 100 request=000009\nbody 1100 000001 A 100",
        2,
    ),
    // A second account that is the other card's first.
    (
        "put card A 2812 active 0 3 20000 A B\nbody 1100 000001 A 100\nbody 1100 000002 B 100",
        1,
    ),
    // A budget of their prefix, in either mode.
    (
        "put budget 411111 standin 400 500\nbody 1100 000001 A 100\nbody 1100 000002 B 100",
        1,
    ),
    (
        "put budget 411111 direct 400 500\nbody 1100 000001 A 100\nbody 1100 000002 B 100",
        1,
    ),
    // A budget of another prefix.
    (
        "put budget 422222 standin 400 500\nbody 1100 000001 A 100\nbody 1100 000002 B 100",
        2,
    ),
    // A card that isn't there.
    (
        "body 1100 000001 A 100\nbody 1100 000002 422222000005 100",
        2,
    ),
    // Bodies that are no messages.
    ("body bad\nbody bad", 1),
];

// How many parts there are where there may be so many, if the batch can be read.
fn parts_of(alloc: Global, batch: &str, most: u32) -> Option<u32> {
    let book = opening(alloc, batch)?;
    let bodies = frames(alloc, batch).ok()?;
    Some(plan_parts(alloc, &book, &bodies, most.max(1)).ok()?.count())
}

fn assert_parts<R: Abort>(rt: &R, alloc: Global, batch: &str, count: u32) {
    let found = parts_of(alloc, batch, 64);
    assert!(rt; found == Some(count), "{found:?} for {count} of {batch}");
}

#[test]
fn falls_into_parts(rt: HostRuntime) {
    for (batch, count) in PLANS {
        assert_parts(&rt, rt.alloc(), batch, *count);
    }
}

// Where two sets of messages have one part, it has both.
#[test]
fn packs_onto_one_part(rt: HostRuntime) {
    let batch = "body 1100 000001 A 100\nbody 1100 000002 B 100";
    let found = parts_of(rt.alloc(), batch, 1);
    assert!(&rt; found == Some(1), "{found:?}");
}
