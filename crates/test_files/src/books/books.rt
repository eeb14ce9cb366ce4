//! Books that are written so, byte for byte, and read again; and books of versions 1 and 2, which are only read. Each of their cards gets
//! an account of its own number, and pays from it what it paid itself.

use crate::books::texts::{ACCOUNT, AHEAD, BUDGET, DAY};
use book_json::{read_book, write_book};
use issuer_rows::Book;
use std::alloc::Global;
use std::sync::Wait;
use std::test::Fail;
use std::thread::Threads;
use test_fixtures::with_rows;

// Rows, and the text of the book with them.
const WRITTEN: &[(&[&str], &str)] = &[
    (
        &[],
        r#"{"accounts":[],"ahead":[],"budgets":[],"cards":[],"days":[],"originals":[],"version":3}"#,
    ),
    (&["account A 10000 978"], ACCOUNT),
    (&["ahead 000001 A request 000002"], AHEAD),
    (&["budget 411111 standin 400 500"], BUDGET),
    (
        &["card A 2812 active 0 3 20000 A -", "account A 10000 978"],
        r#"{"accounts":[{"available":10000,"currency":"978","id":"4111110000000005"}],"ahead":[],"budgets":[],"cards":[{"account":"4111110000000005","approvals":0,"day_amount":20000,"day_count":3,"expiry":"2812","pan":"4111110000000005","second":null,"status":"active"}],"days":[],"originals":[],"version":3}"#,
    ),
    (&["day A 260110 1 6000"], DAY),
    (
        &["approved 000001 A 6000 000001 A", "account A 10000 978"],
        r#"{"accounts":[{"available":10000,"currency":"978","id":"4111110000000005"}],"ahead":[],"budgets":[],"cards":[],"days":[],"originals":[{"account":"4111110000000005","acquirer":"123456","action":"000","amount":6000,"approval":"000001","kind":"request","paid":"account","pan":"4111110000000005","processing":"000000","reversed":null,"stamp":"260110120000","stay":6000,"trace":"000001"}],"version":3}"#,
    ),
    (
        &["declined 000001 A 6000 116 - 000003"],
        r#"{"accounts":[],"ahead":[],"budgets":[],"cards":[],"days":[],"originals":[{"account":null,"acquirer":"123456","action":"116","amount":6000,"approval":null,"kind":"request","paid":"nothing","pan":"4111110000000005","processing":"000000","reversed":{"acquirer":"123456","stamp":"260110120000","trace":"000003"},"stamp":"260110120000","stay":0,"trace":"000001"}],"version":3}"#,
    ),
    (
        &["accepted 000001 A 6000 901 budget 000003 2000"],
        r#"{"accounts":[],"ahead":[],"budgets":[],"cards":[],"days":[],"originals":[{"account":null,"acquirer":"123456","action":"901","amount":6000,"approval":null,"kind":"advice","paid":"budget","pan":"4111110000000005","processing":"000000","reversed":{"acquirer":"123456","stamp":"260110120000","trace":"000003"},"stamp":"260110120000","stay":2000,"trace":"000001"}],"version":3}"#,
    ),
    (
        &["acknowledged 000001 A 6000 900 -"],
        r#"{"accounts":[],"ahead":[],"budgets":[],"cards":[],"days":[],"originals":[{"account":null,"acquirer":"123456","action":"900","amount":6000,"approval":null,"kind":"advice","paid":"nothing","pan":"4111110000000005","processing":"000000","reversed":null,"stamp":"260110120000","stay":0,"trace":"000001"}],"version":3}"#,
    ),
    (
        &[
            "account SAVE1 50 840",
            "card B 2701 lost 7 0 0 SAVE1 -",
            "account A 10000 978",
            "card A 2812 blocked 0 3 20000 A SAVE1",
        ],
        r#"{"accounts":[{"available":10000,"currency":"978","id":"4111110000000005"},{"available":50,"currency":"840","id":"SAVE1"}],"ahead":[],"budgets":[],"cards":[{"account":"4111110000000005","approvals":0,"day_amount":20000,"day_count":3,"expiry":"2812","pan":"4111110000000005","second":"SAVE1","status":"blocked"},{"account":"SAVE1","approvals":7,"day_amount":0,"day_count":0,"expiry":"2701","pan":"4111110000000013","second":null,"status":"lost"}],"days":[],"originals":[],"version":3}"#,
    ),
];

// Rows that cards of version 1 and 2 come to.
const MIGRATED: &[&str] = &[
    "card A 2812 active 0 3 20000 A -",
    "card B 2812 active 0 3 20000 B -",
    "account A 10000 978",
    "account B 500 978",
    "approved 000003 A 6000 000001 A",
    "day A 260110 1 6000",
    "budget 411111 standin 400 500",
];

const VERSION_1: &str =
    r#"{"budgets":[{"cap":400,"left":500,"mode":"stand-in","prefix":"411111"}],"cards":[{"approvals":0,"available":10000,"currency":"978","day_amount":20000,"day_count":3,"expiry":"2812","pan":"4111110000000005","status":"active"},{"approvals":0,"available":500,"currency":"978","day_amount":20000,"day_count":3,"expiry":"2812","pan":"4111110000000013","status":"active"}],"days":[{"count":1,"day":"260110","pan":"4111110000000005","sum":6000}],"originals":[{"acquirer":"123456","action":"000","amount":6000,"approval":"000001","kind":"request","paid":"card","pan":"4111110000000005","processing":"000000","reversed":null,"stamp":"260110120000","stay":6000,"trace":"000003"}],"version":1}"#;

// A mark beside them.
const AHEAD_MARK: &[&str] = &["ahead 000001 A request 000002"];

const VERSION_2: &str =
    r#"{"ahead":[{"acquirer":"123456","kind":"request","pan":"4111110000000005","reversal":{"acquirer":"123456","stamp":"260110120000","trace":"000002"},"stamp":"260110120000","trace":"000001"}],"budgets":[{"cap":400,"left":500,"mode":"stand-in","prefix":"411111"}],"cards":[{"approvals":0,"available":10000,"currency":"978","day_amount":20000,"day_count":3,"expiry":"2812","pan":"4111110000000005","status":"active"},{"approvals":0,"available":500,"currency":"978","day_amount":20000,"day_count":3,"expiry":"2812","pan":"4111110000000013","status":"active"}],"days":[{"count":1,"day":"260110","pan":"4111110000000005","sum":6000}],"originals":[{"acquirer":"123456","action":"000","amount":6000,"approval":"000001","kind":"request","paid":"card","pan":"4111110000000005","processing":"000000","reversed":null,"stamp":"260110120000","stay":6000,"trace":"000003"}],"version":2}"#;

// Whether the text is read as the book.
fn is_read_as<R: Threads + Wait + Sync>(rt: &R, alloc: Global, text: &str, book: &Book) -> bool {
    match read_book(rt, alloc, text.as_bytes()) {
        Ok(read) => read.is_same(book),
        Err(_) => false,
    }
}

// Whether the book is written so.
fn is_written_so(alloc: Global, text: &str, book: &Book) -> bool {
    match write_book(alloc, book) {
        Ok(written) => written.as_slice() == text.as_bytes(),
        Err(_) => false,
    }
}

#[test]
fn books_are_written_so(rt: HostRuntime) -> Result<(), Fail> {
    for (rows, text) in WRITTEN {
        let book = with_rows(Book::new(rt.alloc()), rows)?;
        assert!(rt; is_written_so(rt.alloc(), text, &book), "{text}");
        assert!(rt; is_read_as(&rt, rt.alloc(), text, &book), "{text}");
    }
    Ok(())
}

#[test]
fn old_books_are_migrated(rt: HostRuntime) -> Result<(), Fail> {
    let book = with_rows(Book::new(rt.alloc()), MIGRATED)?;
    assert!(rt; is_read_as(&rt, rt.alloc(), VERSION_1, &book));
    let book = with_rows(book, AHEAD_MARK)?;
    assert!(rt; is_read_as(&rt, rt.alloc(), VERSION_2, &book));
    Ok(())
}
