//! What is wrong with an entry, list by list.

use crate::books::texts::{ACCOUNT, AHEAD, BUDGET, CARD, DAY, ORIGINAL};
use book_json::{JsonFault, Part, read_book};
use book_laws::BookFault;
use std::alloc::Global;
use std::sync::Wait;
use std::thread::Threads;

// A book, a text in it, what stands in its place, and the fault.
const CHANGES: &[(&str, &str, &str, JsonFault)] = &[
    // A key too few, a key too many.
    (CARD, r#""second":null,"#, "", JsonFault::Shape(Part::Cards)),
    (
        CARD,
        r#""second""#,
        r#""other":1,"second""#,
        JsonFault::Shape(Part::Cards),
    ),
    (DAY, r#","sum":6000"#, "", JsonFault::Shape(Part::Days)),
    (BUDGET, r#""cap":400,"#, "", JsonFault::Shape(Part::Budgets)),
    (
        ORIGINAL,
        r#""account":"4111110000000005","#,
        "",
        JsonFault::Shape(Part::Originals),
    ),
    (
        AHEAD,
        r#""trace":"000002""#,
        r#""trace":"000002","x":1"#,
        JsonFault::Shape(Part::Ahead),
    ),
    (
        ACCOUNT,
        r#""id""#,
        r#""ID""#,
        JsonFault::Shape(Part::Accounts),
    ),
    // Another kind of value.
    (
        CARD,
        r#""approvals":0"#,
        r#""approvals":"0""#,
        JsonFault::Shape(Part::Cards),
    ),
    (
        CARD,
        r#""approvals":0"#,
        r#""approvals":-1"#,
        JsonFault::Shape(Part::Cards),
    ),
    (
        CARD,
        r#""approvals":0"#,
        r#""approvals":0.0"#,
        JsonFault::Shape(Part::Cards),
    ),
    (
        CARD,
        ":20000",
        ":18446744073709551616",
        JsonFault::Shape(Part::Cards),
    ),
    (
        CARD,
        r#""second":null"#,
        r#""second":5"#,
        JsonFault::Shape(Part::Cards),
    ),
    (DAY, r#""260110""#, "260110", JsonFault::Shape(Part::Days)),
    (
        ORIGINAL,
        r#""approval":"000001""#,
        r#""approval":1"#,
        JsonFault::Shape(Part::Originals),
    ),
    (
        ORIGINAL,
        r#""reversed":null"#,
        r#""reversed":{}"#,
        JsonFault::Shape(Part::Originals),
    ),
    (
        AHEAD,
        r#"{"acquirer":"123456","stamp":"260110120000","trace":"000002"}"#,
        "null",
        JsonFault::Shape(Part::Ahead),
    ),
    // Outside its range.
    (CARD, ":20000", ":18446744073709551615", JsonFault::Range),
    (CARD, ":20000", ":1000000000000001", JsonFault::Range),
    (
        CARD,
        r#""day_count":3"#,
        r#""day_count":1000000"#,
        JsonFault::Range,
    ),
    (CARD, "2812", "2813", JsonFault::Range),
    (
        CARD,
        r#""pan":"4111110000000005""#,
        r#""pan":"41111100000""#,
        JsonFault::Range,
    ),
    (CARD, "active", "Active", JsonFault::Range),
    (CARD, r#""second":null"#, r#""second":"""#, JsonFault::Range),
    (DAY, "260110", "260132", JsonFault::Range),
    (BUDGET, "stand-in", "standin", JsonFault::Range),
    (BUDGET, "411111", "41111", JsonFault::Range),
    (
        ORIGINAL,
        r#""amount":6000"#,
        r#""amount":1000000000000"#,
        JsonFault::Range,
    ),
    (
        ORIGINAL,
        r#""action":"000""#,
        r#""action":"0""#,
        JsonFault::Range,
    ),
    (
        ORIGINAL,
        r#""paid":"account""#,
        r#""paid":"card""#,
        JsonFault::Range,
    ),
    (AHEAD, "260110120000", "260110240000", JsonFault::Range),
    (ACCOUNT, "978", "97x", JsonFault::Range),
    // An original that can't be.
    (
        ORIGINAL,
        r#""account":"4111110000000005""#,
        r#""account":null"#,
        JsonFault::Range,
    ),
    (
        ORIGINAL,
        r#""paid":"account""#,
        r#""paid":"budget""#,
        JsonFault::Range,
    ),
    (
        ORIGINAL,
        r#""action":"000""#,
        r#""action":"116""#,
        JsonFault::Range,
    ),
    (
        ORIGINAL,
        r#""approval":"000001""#,
        r#""approval":null"#,
        JsonFault::Range,
    ),
    (
        ORIGINAL,
        r#""kind":"request""#,
        r#""kind":"advice""#,
        JsonFault::Range,
    ),
    (
        ORIGINAL,
        r#""stay":6000"#,
        r#""stay":5999"#,
        JsonFault::Range,
    ),
    // A book that isn't sound.
    (
        CARD,
        "active",
        "active",
        JsonFault::Invalid(BookFault::CardWithoutAccount),
    ),
    (
        CARD,
        r#""pan":"4111110000000005""#,
        r#""pan":"4111110000000004""#,
        JsonFault::Invalid(BookFault::CardNumber),
    ),
    (
        ORIGINAL,
        "request",
        "request",
        JsonFault::Invalid(BookFault::OriginalWithoutAccount),
    ),
    (
        BUDGET,
        r#""left":500"#,
        r#""left":1000000000000001"#,
        JsonFault::Range,
    ),
];

// Why the book with this change is none.
fn fault_of<R: Threads + Wait + Sync>(
    rt: &R,
    alloc: Global,
    book: &str,
    old: &str,
    new: &str,
) -> Option<JsonFault> {
    match book.replacen(alloc, old, new, 1) {
        Ok(text) => read_book(rt, alloc, text.as_bytes()).err(),
        Err(_) => None,
    }
}

#[test]
fn each_change_has_its_fault(rt: HostRuntime) {
    for (book, old, new, fault) in CHANGES {
        assert!(rt;
            fault_of(&rt, rt.alloc(), book, old, new) == Some(*fault),
            "{old} {new}"
        );
    }
}
