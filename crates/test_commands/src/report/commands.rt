//! The command over files in memory: its statuses, and what stands on standard output and standard error.

use crate::files::files_with;
use app_reports::{ReportAsked, answer_report};
use std::alloc::Global;
use std::process::Abort;

// A batch with one body, which is no message, and the reply to it; and replies to none.
const BATCH: &[u8] = b"I83B\x00\x01\x00\x00\x00\x01\x00\x04\x31\x31\x30\x30";

const REPLIES: &[u8] = b"I83R\x00\x01\x00\x00\x00\x01\x00\x06F01000";

const NONE: &[u8] = b"I83R\x00\x01\x00\x00\x00\x00";

// Replies to two bodies, of which the second is cut off.
const CUT: &[u8] = b"I83R\x00\x01\x00\x00\x00\x02\x00\x06F01000\x00\x06F01";

const FILES: &[(&str, &[u8])] = &[
    ("batch", BATCH),
    ("replies", REPLIES),
    ("none", NONE),
    ("cut", CUT),
];

// Commands: the names of their files, the status, what stands on standard output, and on standard error.
const COMMANDS: &[(&str, &str, u8, &str, &str)] = &[
    ("batch", "replies", 0, "bodies    no message: 1\n", ""),
    (
        "batch",
        "none",
        1,
        "",
        "replies 0\nnone: it has 0 replies, and the batch another number of bodies\n",
    ),
    (
        "absent",
        "replies",
        1,
        "",
        "file 1\nabsent: no such file or directory\n",
    ),
    (
        "batch",
        "a\nb",
        1,
        "",
        "file 1\na\\x0ab: no such file or directory\n",
    ),
    (
        "replies",
        "replies",
        1,
        "",
        "batch 1\nreplies: it begins with I83R, the letters of replies of a batch, where I83B is to be\n",
    ),
    (
        "batch",
        "batch",
        1,
        "",
        "batch 1\nbatch: it begins with I83B, the letters of a batch, where I83R is to be\n",
    ),
    (
        "batch",
        "cut",
        1,
        "",
        "batch 5\ncut: body 1 at byte 18: the file ends within it, 1 of 2 bodies are whole\n",
    ),
];

// What the command comes to: its status, and what it said.
fn said(alloc: Global, asked: &ReportAsked<'_>) -> Option<(u8, Vec<u8>, Vec<u8>)> {
    let mut files = files_with(alloc, FILES)?;
    let (mut out, mut err) = (Vec::new(alloc), Vec::new(alloc));
    let status = answer_report(alloc, &mut files, asked, &mut out, &mut err);
    Some((status, out, err))
}

#[test]
fn answers_the_commands(rt: HostRuntime) {
    for (batch, replies, status, out, err) in COMMANDS {
        let asked = ReportAsked::Day(batch, replies);
        let said = said(rt.alloc(), &asked).expect(&rt, "room");
        assert!(rt; said.0 == *status, "{batch} {replies}");
        assert!(rt; said.1.as_slice() == out.as_bytes(), "{batch} {replies}");
        assert!(rt; said.2.as_slice() == err.as_bytes(), "{batch} {replies}");
    }
}
