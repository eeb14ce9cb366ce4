//! The command over files in memory: its statuses, and what stands on standard error.

use crate::files::files_with;
use app_reports::{WhyAsked, answer_why, why_asked};
use app_words::Form;
use std::alloc::Global;
use std::process::Abort;
use std::sync::Wait;
use std::thread::Threads;

// A book without rows.
const BOOK: &str =
    "{\"accounts\":[],\"ahead\":[],\"budgets\":[],\"cards\":[],\"days\":[],\"originals\":[],\"version\":3}";

// A batch with one body, which is no message.
const BATCH: &[u8] = b"I83B\x00\x01\x00\x00\x00\x01\x00\x04\x31\x31\x30\x30";

// A batch with a request of trace number 000001, and a body that is no message.
const DAY: &[u8] =
    b"I83B\x00\x01\x00\x00\x00\x02\x00\x621100\x72\x30\x01\x01\x00\x80\x80\x00164111110000000005000000000000000100011012000000000126011012000010006123456TERM0001978\x00\x041100";

// The line of the request.
const REQUEST: &str =
    "message  0: 1100 of card 411111******0005, amount 100, currency 978, processing code 000000, trace 000001, time 260110120000, acquirer 123456\n";

// Commands that list messages, and what stands on standard output.
const LISTS: &[(&str, &str)] = &[
    ("switch why book day --trace 000001", REQUEST),
    ("switch why book day --card 4111110000000005", REQUEST),
    ("switch why book day --trace 000002", ""),
    ("switch why book day --card 000001", ""),
    (
        "switch why book day --trace 000001 --json",
        r#"{"index":0,"type":"1100","pan":"411111******0005","processing":"000000","amount":100,"transmission":"0110120000","trace":"000001","local-time":"260110120000","function":"100","acquirer":"123456","terminal":"TERM0001","currency":"978"}
"#,
    ),
    (
        "switch why book batch 0 --full-pan --json",
        r#"{"index":0,"message":{"fault":"F01000"},"rule":"NoMessage","reason":"the body is no message","read":[],"wrote":[],"reply":{"fault":"F01000"}}
"#,
    ),
];

// Commands: the names of their files and the place, the status, what stands on standard output, and how
// standard error begins: with the fault, and behind it the file of which a reason is told.
const COMMANDS: &[(&str, &str, usize, u8, &str, &str)] = &[
    (
        "book",
        "batch",
        0,
        0,
        "message  0: no message: too few bytes for element 0\nrule     NoMessage: the body is no message\nreply    F01000\n",
        "",
    ),
    (
        "book",
        "batch",
        1,
        2,
        "",
        "index 1\nbatch: it has 1 messages, numbered from 0\n",
    ),
    ("none", "batch", 0, 1, "", "file 1\nnone: "),
    ("book", "none", 0, 1, "", "file 1\nnone: "),
    ("batch", "batch", 0, 1, "", "book 1\nbatch: "),
    ("book", "book", 0, 1, "", "batch 1\nbook: "),
];

// What the command comes to: its status, and what it said.
fn said<R: Threads + Wait + Sync>(
    rt: &R,
    alloc: Global,
    asked: &WhyAsked<'_>,
) -> Option<(u8, Vec<u8>, Vec<u8>)> {
    let files = files_with(
        alloc,
        &[("book", BOOK.as_bytes()), ("batch", BATCH), ("day", DAY)],
    )?;
    let (mut out, mut err) = (Vec::new(alloc), Vec::new(alloc));
    let status = answer_why(rt, alloc, &files, asked, &mut out, &mut err);
    Some((status, out, err))
}

#[test]
fn answers_the_commands(rt: HostRuntime) {
    for (book, batch, index, status, out, err) in COMMANDS {
        let asked = WhyAsked::Message(book, batch, *index, Form::Lines);
        let said = said(&rt, rt.alloc(), &asked).expect(&rt, "room");
        assert!(rt; said.0 == *status, "{book} {batch} {index}");
        assert!(rt;
            said.1.as_slice() == out.as_bytes(),
            "{book} {batch} {index}"
        );
        assert!(rt;
            said.2.as_slice().starts_with(err.as_bytes()),
            "{book} {batch} {index}"
        );
        assert!(rt; *status != 0 || said.2.is_empty(), "{book} {batch} {index}");
    }
}

// What a line of words comes to, if it asks for `why`.
fn said_of<R: Threads + Wait + Sync>(
    rt: &R,
    alloc: Global,
    line: &str,
) -> Option<(u8, Vec<u8>, Vec<u8>)> {
    let mut words = Vec::new(alloc);
    for word in line.split(' ') {
        words.push(String::from_str(alloc, word).ok()?).ok()?;
    }
    said(rt, alloc, &why_asked(&words)?)
}

#[test]
fn lists_what_is_sought(rt: HostRuntime) {
    for (line, out) in LISTS {
        let said = said_of(&rt, rt.alloc(), line).expect(&rt, "words of `why`");
        assert!(rt; said.0 == 0 && said.2.is_empty(), "{line}");
        assert!(rt; said.1.as_slice() == out.as_bytes(), "{line}");
    }
    for line in [
        "switch why book day --amount 5",
        "switch why book day 0 --full-pan",
    ] {
        let said = said_of(&rt, rt.alloc(), line);
        assert!(rt; said.expect(&rt, "words of `why`").0 == 2, "{line}");
    }
}
