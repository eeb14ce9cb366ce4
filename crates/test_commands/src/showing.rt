//! `show` for JSON over files in memory: the lines of each kind of file, worked out by hand from what its help says, its faults and words.

use crate::files::{file_with, words_of};
use app_messages::{SHOW_JSON_HELP, ShowAsked, answer_show, show_asked};
use file_devices::MemoryFiles;
use iso_shown::CardNumbers;
use std::alloc::Global;
use std::process::Abort;

// A batch: a request; the four digits 1100, which are no message; an advice whose account is named by its card's number; and a partial
// reversal.
const BATCH: &[u8] =
    b"I83B\x00\x01\x00\x00\x00\x04\x00\x621100\x72\x30\x01\x01\x00\x80\x80\x00164111110000000005000000000000000600112812000000000126112812000010006400001TERM0001978\x00\x041100\x00\x8b1121\xf2\x30\x01\x01\x0a\x80\x80\x00\x00\x00\x00\x00\x04\x00\x00\x00164111110000000005000000000000000600112812000000000126112812000010006400001REF 00000001900A\"\\B/ 01978164111110000000005\x00\x9a1421\x72\x30\x01\x05\x00\x80\x81\x00164111110000000005000000000000000200112812000000000226112812000040100000000060000000000000006400001TERM000197830110000000126112812000006400001";

// Its lines.
const LINES: &str =
    r#"{"index":0,"type":"1100","pan":"411111******0005","processing":"000000","amount":600,"transmission":"1128120000","trace":"000001","local-time":"261128120000","function":"100","acquirer":"400001","terminal":"TERM0001","currency":"978"}
{"index":1,"fault":"F01000"}
{"index":2,"type":"1121","pan":"411111******0005","processing":"000000","amount":600,"transmission":"1128120000","trace":"000001","local-time":"261128120000","function":"100","acquirer":"400001","reference":"REF 00000001","action":"900","terminal":"A\"\\B/ 01","currency":"978","account":"411111******0005"}
{"index":3,"type":"1421","pan":"411111******0005","processing":"000000","amount":200,"transmission":"1128120000","trace":"000002","local-time":"261128120000","function":"401","original-amount":600,"acquirer":"400001","terminal":"TERM0001","currency":"978","original":"1100000001261128120000400001"}
"#;

// Replies: to a request that is approved, and to a body whose element 49 is missing.
const REPLIES: &[u8] =
    b"I83R\x00\x01\x00\x00\x00\x02\x00\x69R1110\x72\x30\x00\x01\x06\x80\x80\x00164111110000000005000000000000000600112812000000000126112812000006400001A00001000TERM0001978\x00\x06F05049";

// Their lines, in full.
const FULL: &str =
    r#"{"index":0,"type":"1110","pan":"4111110000000005","processing":"000000","amount":600,"transmission":"1128120000","trace":"000001","local-time":"261128120000","acquirer":"400001","approval":"A00001","action":"000","terminal":"TERM0001","currency":"978"}
{"index":1,"fault":"F05049","element":49}
"#;

// Blocks: one with a body that ends within its bitmap, an empty one, and one with a body that ends within its type and one of another
// type.
const BLOCKS: &[u8] =
    b"I83M\x00\x01\x00\x00\x00\x03\x00\x00\x00\x01\x00\x041100\x00\x00\x00\x00\x00\x00\x00\x02\x00\x011\x00\x042100";

// Their lines.
const BLOCK_LINES: &str = r#"{"block":0,"index":0,"fault":"F01000"}
{"block":2,"index":0,"fault":"F01000"}
{"block":2,"index":1,"fault":"F02000"}
"#;

// Replies of a block.
const BLOCK_REPLIES: &[u8] = b"I83T\x00\x01\x00\x00\x00\x01\x00\x00\x00\x01\x00\x06F02000";

// Files: the name, what it holds, which card numbers are asked for, the status, what stands on standard output, and how standard error
// begins: with the fault, and behind it the file of which a reason is told.
const FILES: &[(&str, &[u8], CardNumbers, u8, &str, &str)] = &[
    ("batch", BATCH, CardNumbers::Masked, 0, LINES, ""),
    ("replies", REPLIES, CardNumbers::Full, 0, FULL, ""),
    ("blocks", BLOCKS, CardNumbers::Masked, 0, BLOCK_LINES, ""),
    (
        "block replies",
        BLOCK_REPLIES,
        CardNumbers::Masked,
        0,
        "{\"block\":0,\"index\":0,\"fault\":\"F02000\"}\n",
        "",
    ),
    (
        "empty",
        b"I83B\x00\x01\x00\x00\x00\x00",
        CardNumbers::Masked,
        0,
        "",
        "",
    ),
    (
        "text",
        b"1100",
        CardNumbers::Masked,
        1,
        "",
        "batch 1\ntext: ",
    ),
    (
        "short",
        b"I83",
        CardNumbers::Masked,
        1,
        "",
        "batch 5\nshort: ",
    ),
    (
        "ends",
        b"I83B\x00\x01\x00\x00\x00\x01",
        CardNumbers::Masked,
        1,
        "",
        "batch 5\nends: ",
    ),
    (
        "no reply",
        b"I83R\x00\x01\x00\x00\x00\x01\x00\x01X",
        CardNumbers::Masked,
        1,
        "",
        "batch 9\nno reply: ",
    ),
    (
        "many blocks",
        b"I83M\x00\x01\x00\x00\x03\xe9",
        CardNumbers::Masked,
        1,
        "",
        "batch 10\nmany blocks: ",
    ),
];

// What the command comes to: its status, and what it said.
fn said(alloc: Global, files: &MemoryFiles, asked: &ShowAsked<'_>) -> (u8, Vec<u8>, Vec<u8>) {
    let (mut out, mut err) = (Vec::new(alloc), Vec::new(alloc));
    let status = answer_show(alloc, files, asked, &mut out, &mut err);
    (status, out, err)
}

#[test]
fn shows_each_kind_of_file(rt: HostRuntime) {
    for (name, bytes, cards, status, out, err) in FILES {
        let files = file_with(rt.alloc(), name, bytes).expect(&rt, "room");
        let said = said(rt.alloc(), &files, &ShowAsked::File(name, *cards));
        assert!(rt; said.0 == *status, "{name}");
        assert!(rt; said.1.as_slice() == out.as_bytes(), "{name}");
        assert!(rt; said.2.as_slice().starts_with(err.as_bytes()), "{name}");
        assert!(rt; *status != 0 || said.2.is_empty(), "{name}");
    }
}

#[test]
fn says_what_it_takes_for_json(rt: HostRuntime) {
    let files = MemoryFiles::new(rt.alloc());
    let help = said(rt.alloc(), &files, &ShowAsked::Help);
    assert!(rt; help.0 == 0 && help.1.as_slice() == SHOW_JSON_HELP.as_bytes());
    let wrong = said(rt.alloc(), &files, &ShowAsked::Wrong);
    assert!(rt; wrong.0 == 2 && wrong.1.is_empty());
    let none = ShowAsked::File("none", CardNumbers::Masked);
    let none = said(rt.alloc(), &files, &none);
    assert!(rt; none.0 == 1 && none.2.as_slice().starts_with(b"file 1\nnone: "));
}

// Words behind `show`, and which card numbers they ask for of the file `day`; none where they are wrong.
const WORDS: &[(&[&str], Option<CardNumbers>)] = &[
    (
        &["switch", "show", "day", "--json"],
        Some(CardNumbers::Masked),
    ),
    (
        &["switch", "show", "--json", "day"],
        Some(CardNumbers::Masked),
    ),
    (
        &["switch", "show", "--full-pan", "day", "--json"],
        Some(CardNumbers::Full),
    ),
    (
        &["switch", "show", "day", "--json", "--full-pan"],
        Some(CardNumbers::Full),
    ),
    (&["switch", "show", "day", "--full-pan"], None),
    (&["switch", "show", "--json"], None),
    (&["switch", "show", "--json", "--full-pan"], None),
    (&["switch", "show", "--json", "--json"], None),
    (&["switch", "show", "day", "night", "--json"], None),
];

#[test]
fn reads_its_words(rt: HostRuntime) {
    for (words, cards) in WORDS {
        let words = words_of(rt.alloc(), words).expect(&rt, "room");
        match (show_asked(&words), cards) {
            (Some(ShowAsked::File(name, asked)), Some(cards)) => {
                assert!(rt; name == "day" && asked == *cards);
            }
            (asked, cards) => {
                assert!(rt; matches!(asked, Some(ShowAsked::Wrong)) && cards.is_none());
            }
        }
    }
    let plain = words_of(rt.alloc(), &["switch", "show", "day"]).expect(&rt, "room");
    assert!(rt; show_asked(&plain).is_none());
    let other = words_of(rt.alloc(), &["switch", "why", "day", "--json"]).expect(&rt, "room");
    assert!(rt; show_asked(&other).is_none());
}
