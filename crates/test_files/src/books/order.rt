//! Which of several faults is answered, and texts that are no JSON.

use book_json::{JsonFault, Part, read_book};
use book_laws::BookFault;
use std::alloc::{AllocError, Global};
use std::sync::Wait;
use std::thread::Threads;

// Texts, and why they are no book.
const TEXTS: &[(&[u8], Option<JsonFault>)] = &[
    // The version is that of the keys.
    (
        br#"{"accounts":[],"ahead":[],"budgets":[],"cards":[],"days":[],"originals":[],"version":3}"#,
        None,
    ),
    (
        br#"{"accounts":[],"ahead":[],"budgets":[],"cards":[],"days":[],"originals":[],"version":2}"#,
        Some(JsonFault::Range),
    ),
    (
        br#"{"accounts":[],"ahead":[],"budgets":[],"cards":[],"days":[],"originals":[],"version":"3"}"#,
        Some(JsonFault::Shape(Part::Version)),
    ),
    (
        br#"{"accounts":[],"ahead":[],"budgets":[],"cards":[],"days":[],"originals":[],"other":3}"#,
        Some(JsonFault::Shape(Part::Top)),
    ),
    (
        br#"{"accounts":[],"ahead":[],"budgets":[],"cards":[],"days":[],"originals":[],"version":3,"x":0}"#,
        Some(JsonFault::Shape(Part::Top)),
    ),
    (
        br#"{"accounts":[],"ahead":[],"budgets":[],"cards":[],"days":[],"originals":[],"version":1,"version":3}"#,
        None,
    ),
    (
        br#"{"budgets":[],"cards":[],"days":[],"originals":[],"version":3}"#,
        Some(JsonFault::Range),
    ),
    (
        br#"{"ahead":[],"budgets":[],"cards":[],"days":[],"originals":[],"version":3}"#,
        Some(JsonFault::Range),
    ),
    // No JSON, and values that are no object.
    (b"", Some(JsonFault::Syntax)),
    (b"{", Some(JsonFault::Syntax)),
    (b"{} {}", Some(JsonFault::Syntax)),
    (b"\xff", Some(JsonFault::Syntax)),
    (b"\"\xc3\"", Some(JsonFault::Syntax)),
    (b"[]", Some(JsonFault::Shape(Part::Top))),
    (b" {} ", Some(JsonFault::Shape(Part::Top))),
    (b"null", Some(JsonFault::Shape(Part::Top))),
    // Another shape of a list or an entry.
    (
        br#"{"accounts":[],"ahead":[],"budgets":[],"cards":{},"days":[],"originals":[],"version":3}"#,
        Some(JsonFault::Shape(Part::Cards)),
    ),
    (
        br#"{"accounts":[],"ahead":[],"budgets":[],"cards":[1],"days":[],"originals":[],"version":3}"#,
        Some(JsonFault::Shape(Part::Cards)),
    ),
    (
        br#"{"accounts":[],"ahead":[],"budgets":[],"cards":[{}],"days":[],"originals":[],"version":3}"#,
        Some(JsonFault::Shape(Part::Cards)),
    ),
    (
        br#"{"accounts":[],"ahead":[],"budgets":[],"cards":[],"days":null,"originals":[],"version":3}"#,
        Some(JsonFault::Shape(Part::Days)),
    ),
    (
        br#"{"accounts":[],"ahead":[],"budgets":7,"cards":[],"days":[],"originals":[],"version":3}"#,
        Some(JsonFault::Shape(Part::Budgets)),
    ),
    (
        br#"{"accounts":[],"ahead":[],"budgets":[],"cards":[],"days":[],"originals":"","version":3}"#,
        Some(JsonFault::Shape(Part::Originals)),
    ),
    (
        br#"{"accounts":[],"ahead":true,"budgets":[],"cards":[],"days":[],"originals":[],"version":3}"#,
        Some(JsonFault::Shape(Part::Ahead)),
    ),
    (
        br#"{"accounts":[[]],"ahead":[],"budgets":[],"cards":[],"days":[],"originals":[],"version":3}"#,
        Some(JsonFault::Shape(Part::Accounts)),
    ),
    // Parts are read in their order: the accounts stand first in the text, and are read last.
    (
        br#"{"accounts":1,"ahead":1,"budgets":1,"cards":[],"days":[],"originals":1,"version":3}"#,
        Some(JsonFault::Shape(Part::Budgets)),
    ),
    (
        br#"{"accounts":1,"ahead":1,"budgets":[],"cards":[],"days":[],"originals":[],"version":3}"#,
        Some(JsonFault::Shape(Part::Ahead)),
    ),
    // The version is read before all lists.
    (
        br#"{"accounts":[],"ahead":[],"budgets":[],"cards":1,"days":[],"originals":[],"version":4}"#,
        Some(JsonFault::Range),
    ),
    // Fields are read in the order of their keys: approvals that are too many before an expiry of another kind, and an account of
    // another kind before approvals that are too many.
    (
        br#"{"accounts":[],"ahead":[],"budgets":[],"cards":[{"account":"4111110000000005","approvals":1000000,"day_amount":20000,"day_count":3,"expiry":2812,"pan":"4111110000000005","second":null,"status":"active"}],"days":[],"originals":[],"version":3}"#,
        Some(JsonFault::Range),
    ),
    (
        br#"{"accounts":[],"ahead":[],"budgets":[],"cards":[{"account":null,"approvals":1000000,"day_amount":20000,"day_count":3,"expiry":"2812","pan":"4111110000000005","second":null,"status":"active"}],"days":[],"originals":[],"version":3}"#,
        Some(JsonFault::Shape(Part::Cards)),
    ),
    // A row stands once.
    (
        br#"{"accounts":[],"ahead":[],"budgets":[],"cards":[{"account":"4111110000000005","approvals":0,"day_amount":20000,"day_count":3,"expiry":"2812","pan":"4111110000000005","second":null,"status":"active"},{"account":"4111110000000005","approvals":0,"day_amount":20000,"day_count":3,"expiry":"2812","pan":"4111110000000005","second":null,"status":"active"}],"days":[],"originals":[],"version":3}"#,
        Some(JsonFault::Shape(Part::Cards)),
    ),
    (
        br#"{"accounts":[],"ahead":[],"budgets":[],"cards":[],"days":[{"count":1,"day":"260110","pan":"4111110000000005","sum":6000},{"count":1,"day":"260110","pan":"4111110000000005","sum":6000}],"originals":[],"version":3}"#,
        Some(JsonFault::Shape(Part::Days)),
    ),
    (
        br#"{"accounts":[],"ahead":[],"budgets":[],"cards":[],"days":[],"originals":[{"account":"4111110000000005","acquirer":"123456","action":"000","amount":6000,"approval":"000001","kind":"request","paid":"account","pan":"4111110000000005","processing":"000000","reversed":null,"stamp":"260110120000","stay":6000,"trace":"000001"},{"account":"4111110000000005","acquirer":"123456","action":"000","amount":6000,"approval":"000001","kind":"request","paid":"account","pan":"4111110000000005","processing":"000000","reversed":null,"stamp":"260110120000","stay":6000,"trace":"000001"}],"version":3}"#,
        Some(JsonFault::Shape(Part::Originals)),
    ),
    (
        br#"{"accounts":[],"ahead":[{"acquirer":"123456","kind":"request","pan":"4111110000000005","reversal":{"acquirer":"123456","stamp":"260110120000","trace":"000002"},"stamp":"260110120000","trace":"000001"},{"acquirer":"123456","kind":"request","pan":"4111110000000005","reversal":{"acquirer":"123456","stamp":"260110120000","trace":"000002"},"stamp":"260110120000","trace":"000001"}],"budgets":[],"cards":[],"days":[],"originals":[],"version":3}"#,
        Some(JsonFault::Shape(Part::Ahead)),
    ),
    (
        br#"{"accounts":[{"available":10000,"currency":"978","id":"4111110000000005"},{"available":10000,"currency":"978","id":"4111110000000005"}],"ahead":[],"budgets":[],"cards":[],"days":[],"originals":[],"version":3}"#,
        Some(JsonFault::Shape(Part::Accounts)),
    ),
    // An original that is decided and marked.
    (
        br#"{"accounts":[],"ahead":[{"acquirer":"123456","kind":"request","pan":"4111110000000005","reversal":{"acquirer":"123456","stamp":"260110120000","trace":"000002"},"stamp":"260110120000","trace":"000001"}],"budgets":[],"cards":[],"days":[],"originals":[{"account":"4111110000000005","acquirer":"123456","action":"000","amount":6000,"approval":"000001","kind":"request","paid":"account","pan":"4111110000000005","processing":"000000","reversed":null,"stamp":"260110120000","stay":6000,"trace":"000001"}],"version":3}"#,
        Some(JsonFault::Shape(Part::Ahead)),
    ),
    // Spaces, and any order.
    (
        b"{ \"version\" : 3, \"originals\" : [ ], \"days\" : [],\n\"cards\":[],\"budgets\":[],\"ahead\":[],\t\"accounts\":[] }",
        None,
    ),
    // A book of version 1 whose original names the account, and one with what a card paid that isn't there.
    (
        br#"{"budgets":[],"cards":[],"days":[],"originals":[{"acquirer":"123456","action":"000","amount":6000,"approval":"000001","kind":"request","paid":"account","pan":"4111110000000005","processing":"000000","reversed":null,"stamp":"260110120000","stay":6000,"trace":"000003"}],"version":1}"#,
        Some(JsonFault::Range),
    ),
    (
        br#"{"budgets":[],"cards":[],"days":[],"originals":[{"acquirer":"123456","action":"000","amount":6000,"approval":"000001","kind":"request","paid":"card","pan":"4111110000000005","processing":"000000","reversed":null,"stamp":"260110120000","stay":6000,"trace":"000003"}],"version":1}"#,
        Some(JsonFault::Invalid(BookFault::OriginalWithoutAccount)),
    ),
];

fn fault_of<R: Threads + Wait + Sync>(rt: &R, alloc: Global, text: &[u8]) -> Option<JsonFault> {
    read_book(rt, alloc, text).err()
}

#[test]
fn the_first_fault_is_answered(rt: HostRuntime) {
    for (text, fault) in TEXTS {
        assert!(rt; fault_of(&rt, rt.alloc(), text) == *fault, "{text:?}");
    }
}

// So many opening brackets, and as many that close them.
fn brackets(alloc: Global, count: usize) -> Result<String, AllocError> {
    let open = "[".repeat(alloc, count)?;
    let close = "]".repeat(alloc, count)?;
    format!(in alloc; "{open}{close}")
}

// Whether so many brackets are a fault.
fn is_fault_of_depth<R: Threads + Wait + Sync>(
    rt: &R,
    alloc: Global,
    count: usize,
    fault: JsonFault,
) -> bool {
    match brackets(alloc, count) {
        Ok(text) => fault_of(rt, alloc, text.as_bytes()) == Some(fault),
        Err(_) => false,
    }
}

#[test]
fn too_deep(rt: HostRuntime) {
    assert!(rt; is_fault_of_depth(&rt, rt.alloc(), 200, JsonFault::Syntax));
    assert!(rt; is_fault_of_depth(&rt, rt.alloc(), 100, JsonFault::Shape(Part::Top)));
}

#[test]
fn faults_have_their_numbers(rt: HostRuntime) {
    assert!(rt; JsonFault::Syntax.number() == 1);
    assert!(rt; JsonFault::Shape(Part::Accounts).number() == 2);
    assert!(rt; JsonFault::Range.number() == 3);
    assert!(rt; JsonFault::OutOfMemory.number() == 5);
    assert!(rt; Part::Accounts.number() == 7);
}
