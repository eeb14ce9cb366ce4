//! What words ask for.

use app_parts::{ARCHIVE_HELP, answer_archive, archive_asked};
use file_devices::MemoryFiles;
use std::alloc::Global;
use std::process::Abort;
use std::sync::Wait;
use std::thread::Threads;

const USAGE: &str =
    "usage: switch archive <BOOK> <DATE> <NEWBOOK> <OLD>, DATE as YYMMDD; `switch archive --help` says more\n";

// Words behind the program's name, where no file is there: the status, what stands on standard output, and on standard error.
const SAID: &[(&[&str], u8, &str, &str)] = &[
    (
        &["archive", "book", "260310", "new", "old"],
        1,
        "",
        "file 1\nbook: no such file or directory\n",
    ),
    (
        &["archive", "book", "2026-03-10", "new", "old"],
        2,
        "",
        USAGE,
    ),
    (&["archive", "book", "261310", "new", "old"], 2, "", USAGE),
    (&["archive", "book", "260310", "new"], 2, "", USAGE),
    (&["archive", "--help"], 0, ARCHIVE_HELP, ""),
    (&["archive", "-h"], 0, ARCHIVE_HELP, ""),
    (&["archive"], 2, "", USAGE),
];

fn words_of(alloc: Global, words: &[&str]) -> Option<Vec<String>> {
    let mut all = Vec::new(alloc);
    all.push(String::from_str(alloc, "switch").ok()?).ok()?;
    for word in words {
        all.push(String::from_str(alloc, word).ok()?).ok()?;
    }
    Some(all)
}

// What words come to that ask for `archive`: the status, and what was said.
fn said_of<R: Threads + Wait + Sync>(
    rt: &R,
    alloc: Global,
    words: &[&str],
) -> Option<(u8, Vec<u8>, Vec<u8>)> {
    let all = words_of(alloc, words)?;
    let mut files = MemoryFiles::new(alloc);
    let (mut out, mut err) = (Vec::new(alloc), Vec::new(alloc));
    if let Some(asked) = archive_asked(&all) {
        let status = answer_archive(rt, alloc, &mut files, &asked, &mut out, &mut err);
        return Some((status, out, err));
    }
    None
}

#[test]
fn answers_words(rt: HostRuntime) {
    for (words, status, out, err) in SAID {
        let said = said_of(&rt, rt.alloc(), words).expect(&rt, "words of `archive`");
        assert!(rt; said.0 == *status, "{status} {out} {err}");
        assert!(rt; said.1.as_slice() == out.as_bytes(), "{status} {out} {err}");
        assert!(rt; said.2.as_slice() == err.as_bytes(), "{status} {out} {err}");
    }
    let other = ["report", "book", "260310", "new", "old"];
    assert!(rt; said_of(&rt, rt.alloc(), &other).is_none());
}
