//! `unpack` of batches over files in memory: its statuses, its lines, and what stands on standard error.

use crate::files::{file_with, words_of};
use app_messages::{UNPACK_HELP, UnpackAsked, answer_unpack, unpack_asked};
use file_devices::MemoryFiles;
use file_listing::read_bodies;
use std::alloc::Global;
use std::process::Abort;

// A batch of two bodies, of which none is a message: the four digits 1100, and a line feed.
const BATCH: &[u8] = b"I83B\x00\x01\x00\x00\x00\x02\x00\x04\x31\x31\x30\x30\x00\x01\x0a";

// Its text.
const LINES: &str = "31313030\n0a\n";

// Files: the name, what it holds, the status of `unpack`, what stands on standard output, and how standard
// error begins: with the fault, and behind it the file of which a reason is told.
const FILES: &[(&str, &[u8], u8, &str, &str)] = &[
    ("whole", BATCH, 0, LINES, ""),
    ("empty", b"I83B\x00\x01\x00\x00\x00\x00", 0, "", ""),
    (
        "replies",
        b"I83R\x00\x01\x00\x00\x00\x00",
        1,
        "",
        "batch 1\nreplies: ",
    ),
    (
        "version",
        b"I83B\x00\x02\x00\x00\x00\x00",
        1,
        "",
        "batch 2\nversion: ",
    ),
    (
        "many",
        b"I83B\x00\x01\x00\x01\x00\x01",
        1,
        "",
        "batch 3\nmany: ",
    ),
    (
        "short",
        b"I83B\x00\x01\x00\x00\x00\x01\x00\x00",
        1,
        "",
        "batch 4\nshort: ",
    ),
    (
        "ends",
        b"I83B\x00\x01\x00\x00\x00\x01\x00\x02\x31",
        1,
        "",
        "batch 5\nends: ",
    ),
    (
        "behind",
        b"I83B\x00\x01\x00\x00\x00\x00\x31",
        1,
        "",
        "batch 6\nbehind: ",
    ),
];

// What the command comes to: its status, and what it said.
fn said(alloc: Global, files: &MemoryFiles, asked: &UnpackAsked<'_>) -> (u8, Vec<u8>, Vec<u8>) {
    let (mut out, mut err) = (Vec::new(alloc), Vec::new(alloc));
    let status = answer_unpack(alloc, files, asked, &mut out, &mut err);
    (status, out, err)
}

#[test]
fn unpacks_batches(rt: HostRuntime) {
    for (name, bytes, status, out, err) in FILES {
        let files = file_with(rt.alloc(), name, bytes).expect(&rt, "room");
        let said = said(rt.alloc(), &files, &UnpackAsked::Batch(name));
        assert!(rt; said.0 == *status, "{name}");
        assert!(rt; said.1.as_slice() == out.as_bytes(), "{name}");
        assert!(rt; said.2.as_slice().starts_with(err.as_bytes()), "{name}");
        assert!(rt; *status != 0 || said.2.is_empty(), "{name}");
    }
}

#[test]
fn tells_of_a_file_that_is_not_there(rt: HostRuntime) {
    let files = file_with(rt.alloc(), "whole", BATCH).expect(&rt, "room");
    let said = said(rt.alloc(), &files, &UnpackAsked::Batch("none"));
    assert!(rt; said.0 == 1 && said.1.is_empty());
    assert!(rt; said.2.as_slice().starts_with(b"file 1\nnone: "));
}

#[test]
fn says_what_it_takes(rt: HostRuntime) {
    let files = MemoryFiles::new(rt.alloc());
    let help = said(rt.alloc(), &files, &UnpackAsked::Help);
    assert!(rt; help.0 == 0 && help.1.as_slice() == UNPACK_HELP.as_bytes());
    let wrong = said(rt.alloc(), &files, &UnpackAsked::Wrong);
    assert!(rt; wrong.0 == 2 && wrong.1.is_empty());
    assert!(rt;
        wrong.2.as_slice()
            == b"usage: switch unpack <BATCH>, or switch unpack --block <N> <BLOCKS>; `switch unpack --help` says more\n".as_slice()
    );
}

#[test]
fn packs_its_lines_again(rt: HostRuntime) {
    let bodies = read_bodies(rt.alloc(), LINES.as_bytes()).expect(&rt, "bodies");
    assert!(rt; bodies.len() == 2);
    assert!(rt;
        bodies[0].as_slice() == b"1100".as_slice() && bodies[1].as_slice() == b"\n".as_slice()
    );
}

#[test]
fn reads_its_words(rt: HostRuntime) {
    let batch = words_of(rt.alloc(), &["switch", "unpack", "day.batch"]).expect(&rt, "room");
    assert!(rt; matches!(unpack_asked(&batch), Some(UnpackAsked::Batch("day.batch"))));
    let help = words_of(rt.alloc(), &["switch", "unpack", "-h"]).expect(&rt, "room");
    assert!(rt; matches!(unpack_asked(&help), Some(UnpackAsked::Help)));
    let wrong = words_of(rt.alloc(), &["switch", "unpack"]).expect(&rt, "room");
    assert!(rt; matches!(unpack_asked(&wrong), Some(UnpackAsked::Wrong)));
    let other = words_of(rt.alloc(), &["switch", "pack", "text"]).expect(&rt, "room");
    assert!(rt; unpack_asked(&other).is_none());
}
