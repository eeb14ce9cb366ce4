//! `unpack` of blocks over files in memory: its statuses, its lines, and what stands on standard error; and that `pack --blocks` of its texts
//! makes the file again.

use crate::files::{file_with, words_of};
use app_messages::{UnpackAsked, answer_unpack, pack_blocks, unpack_asked};
use file_devices::{Files, MemoryFiles, read_file};
use std::alloc::Global;
use std::process::Abort;

// A file of three blocks: of two bodies, the four digits 1100 and a line feed; of none; and of one, the letter F.
const BLOCKS: &[u8] =
    b"I83M\x00\x01\x00\x00\x00\x03\x00\x00\x00\x02\x00\x04\x31\x31\x30\x30\x00\x01\x0a\x00\x00\x00\x00\x00\x00\x00\x01\x00\x01\x46";

// The texts of its blocks.
const TEXTS: &[&str] = &["31313030\n0a\n", "", "46\n"];

// Files that are asked for a block: the name, what it holds, the number of the block, the status of `unpack`, and how standard error begins:
// with the fault, and behind it the file of which a reason is told.
const FAULTS: &[(&str, &[u8], usize, u8, &str)] = &[
    (
        "three",
        BLOCKS,
        3,
        2,
        "block 3\nthree: it has 3 blocks, numbered from 0\n",
    ),
    (
        "none",
        b"I83M\x00\x01\x00\x00\x00\x00",
        0,
        2,
        "block 0\nnone: it has 0 blocks, numbered from 0\n",
    ),
    (
        "batch",
        b"I83B\x00\x01\x00\x00\x00\x00",
        0,
        1,
        "batch 1\nbatch: ",
    ),
    (
        "version",
        b"I83M\x00\x02\x00\x00\x00\x00",
        0,
        1,
        "batch 2\nversion: ",
    ),
    (
        "many",
        b"I83M\x00\x01\x00\x00\x03\xe9",
        0,
        1,
        "batch 10\nmany: ",
    ),
    // The first block is whole, the second announces 65,537 bodies.
    (
        "many bodies",
        b"I83M\x00\x01\x00\x00\x00\x02\x00\x00\x00\x00\x00\x01\x00\x01",
        0,
        1,
        "batch 3\nmany bodies: ",
    ),
    (
        "ends",
        b"I83M\x00\x01\x00\x00\x00\x01\x00\x00\x00\x01\x00\x02\x31",
        0,
        1,
        "batch 5\nends: ",
    ),
    (
        "behind",
        b"I83M\x00\x01\x00\x00\x00\x00\x31",
        0,
        1,
        "batch 6\nbehind: ",
    ),
];

// What the command comes to: its status, and what it said.
fn said(alloc: Global, files: &MemoryFiles, name: &str, number: usize) -> (u8, Vec<u8>, Vec<u8>) {
    let (mut out, mut err) = (Vec::new(alloc), Vec::new(alloc));
    let asked = UnpackAsked::Block(name, number);
    let status = answer_unpack(alloc, files, &asked, &mut out, &mut err);
    (status, out, err)
}

#[test]
fn unpacks_each_block(rt: HostRuntime) {
    let files = file_with(rt.alloc(), "blocks", BLOCKS).expect(&rt, "room");
    for (number, text) in TEXTS.iter().enumerate() {
        let said = said(rt.alloc(), &files, "blocks", number);
        assert!(rt; said.0 == 0 && said.2.is_empty(), "{number}");
        assert!(rt; said.1.as_slice() == text.as_bytes(), "{number}");
    }
}

#[test]
fn tells_why_a_block_is_not_unpacked(rt: HostRuntime) {
    for (name, bytes, number, status, err) in FAULTS {
        let files = file_with(rt.alloc(), name, bytes).expect(&rt, "room");
        let said = said(rt.alloc(), &files, name, *number);
        assert!(rt; said.0 == *status && said.1.is_empty(), "{name}");
        assert!(rt; said.2.as_slice().starts_with(err.as_bytes()), "{name}");
    }
    let files = file_with(rt.alloc(), "blocks", BLOCKS).expect(&rt, "room");
    let said = said(rt.alloc(), &files, "gone", 0);
    assert!(rt; said.0 == 1 && said.1.is_empty());
    assert!(rt; said.2.as_slice().starts_with(b"file 1\ngone: "));
}

// The texts of the blocks, each as a file of its own, and their names.
fn texts(alloc: Global) -> Option<(MemoryFiles, Vec<String>)> {
    let mut files = MemoryFiles::new(alloc);
    let mut names = Vec::new(alloc);
    for (number, text) in TEXTS.iter().enumerate() {
        let name = format!(in alloc; "{number}.txt").ok()?;
        files
            .put(name.as_str(), Vec::from_slice(alloc, text.as_bytes()).ok()?)
            .ok()?;
        names.push(name).ok()?;
    }
    Some((files, names))
}

#[test]
fn packs_its_texts_again(rt: HostRuntime) {
    let (mut files, names) = texts(rt.alloc()).expect(&rt, "room");
    let packed = pack_blocks(rt.alloc(), &mut files, &names, "again");
    assert!(rt; matches!(packed, Ok(3)));
    let again = read_file(rt.alloc(), &files, "again").expect(&rt, "there");
    assert!(rt; again.as_slice() == BLOCKS);
}

// Words that ask for block 12 of the file `day`, and words that are wrong.
const WORDS: &[(&[&str], bool)] = &[
    (&["switch", "unpack", "--block", "12", "day"], true),
    (&["switch", "unpack", "day", "--block", "12"], true),
    (&["switch", "unpack", "--block", "day", "12"], false),
    (&["switch", "unpack", "day", "12", "--block"], false),
    (&["switch", "unpack", "--block", "-1", "day"], false),
    (&["switch", "unpack", "--block", "4294967296", "day"], false),
    (&["switch", "unpack", "--block", "12"], false),
    (
        &["switch", "unpack", "--block", "12", "day", "night"],
        false,
    ),
];

#[test]
fn reads_its_words(rt: HostRuntime) {
    for (words, are_right) in WORDS {
        let words = words_of(rt.alloc(), words).expect(&rt, "room");
        match unpack_asked(&words) {
            Some(UnpackAsked::Block("day", 12)) => assert!(rt; *are_right),
            Some(UnpackAsked::Wrong) => assert!(rt; !*are_right),
            _ => assert!(rt; false),
        }
    }
}
