//! A book of three cards, and a batch of their requests, with two bodies that are no message.

use crate::files::files_with;
use file_devices::MemoryFiles;
use std::alloc::Global;

const BOOK: &str =
    r#"{"accounts":[{"available":1000,"currency":"978","id":"A"},{"available":500,"currency":"978","id":"B"},{"available":700,"currency":"978","id":"C"}],"ahead":[],"budgets":[],"cards":[{"account":"A","approvals":0,"day_amount":20000,"day_count":9,"expiry":"2812","pan":"4111110000000005","second":null,"status":"active"},{"account":"B","approvals":0,"day_amount":20000,"day_count":9,"expiry":"2812","pan":"4111110000000013","second":null,"status":"active"},{"account":"C","approvals":0,"day_amount":20000,"day_count":9,"expiry":"2812","pan":"4222220000000016","second":null,"status":"active"}],"days":[],"originals":[],"version":3}"#;

// Cards, and the amount and the trace number of a request of each, in the order of arrival. Those of no card are bodies that are no message.
const REQUESTS: &[(&str, &str, &str)] = &[
    ("4111110000000005", "000000000600", "000001"),
    ("", "", ""),
    ("4111110000000013", "000000000100", "000002"),
    ("4111110000000005", "000000000600", "000003"),
    ("4222220000000016", "000000000300", "000004"),
    ("4111110000000005", "000000000300", "000005"),
    ("", "", ""),
    ("4222220000000016", "000000000500", "000006"),
];

fn request_of(alloc: Global, card: &str, amount: &str, trace: &str) -> Option<Vec<u8>> {
    let mut body = Vec::new(alloc);
    if card.is_empty() {
        body.extend_from_slice(b"none").ok()?;
        return Some(body);
    }
    body.extend_from_slice(b"1100").ok()?;
    body.extend_from_slice(&[0x72, 0x30, 0x01, 0x01, 0x00, 0x80, 0x80, 0x00])
        .ok()?;
    for text in &[
        "16",
        card,
        "000000",
        amount,
        "0110120000",
        trace,
        "260110120000",
        "100",
        "06",
        "123456",
        "TERM0001",
        "978",
    ] {
        body.extend_from_slice(text.as_bytes()).ok()?;
    }
    Some(body)
}

fn batch(alloc: Global) -> Option<Vec<u8>> {
    let mut bytes = Vec::new(alloc);
    bytes
        .extend_from_slice(b"I83B\x00\x01\x00\x00\x00\x08")
        .ok()?;
    for (card, amount, trace) in REQUESTS {
        let body = request_of(alloc, card, amount, trace)?;
        bytes.push(0).ok()?;
        bytes.push(u8::try_from(body.len()).ok()?).ok()?;
        bytes.extend_from_slice(&body).ok()?;
    }
    Some(bytes)
}

/// Files that hold this book, as `book`, and this batch, as `batch`.
pub fn files(alloc: Global) -> Option<MemoryFiles> {
    let batch = batch(alloc)?;
    files_with(
        alloc,
        &[("book", BOOK.as_bytes()), ("batch", batch.as_slice())],
    )
}
