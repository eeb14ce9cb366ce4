//! What words ask for.

use app_parts::{DECIDE_HELP, JOIN_HELP, PART_HELP, answer_parts, parts_asked};
use file_devices::MemoryFiles;
use std::alloc::Global;
use std::process::Abort;
use std::sync::Wait;
use std::thread::Threads;

const PART: &str =
    "usage: switch part <BOOK> <BATCH> <N> <FOLDER>, N from 1 to 64; `switch part --help` says more\n";

const DECIDE: &str = "usage: switch decide <FOLDER> <K>; `switch decide --help` says more\n";

const JOIN: &str =
    "usage: switch join <FOLDER> <REPLIES> <NEWBOOK>; `switch join --help` says more\n";

// Words where no file is there: the status, what stands on standard output, and on standard error.
const SAID: &[(&str, u8, &str, &str)] = &[
    (
        "switch part book batch 2 parts",
        1,
        "",
        "file 1\nbook: no such file or directory\n",
    ),
    ("switch part book batch 0 parts", 2, "", PART),
    ("switch part book batch 65 parts", 2, "", PART),
    ("switch part book batch parts", 2, "", PART),
    (
        "switch part parts/plan batch 2 parts",
        2,
        "",
        "BOOK and FOLDER/plan are one file\n",
    ),
    (
        "switch part book parts/1.batch 2 parts",
        2,
        "",
        "BATCH and a part's batch are one file\n",
    ),
    ("switch part --help", 0, PART_HELP, ""),
    ("switch decide parts one", 2, "", DECIDE),
    ("switch decide parts", 2, "", DECIDE),
    ("switch decide -h", 0, DECIDE_HELP, ""),
    (
        "switch join parts same same",
        2,
        "",
        "REPLIES and NEWBOOK are one file\n",
    ),
    ("switch join parts replies", 2, "", JOIN),
    ("switch join --help", 0, JOIN_HELP, ""),
];

fn said_of<R: Threads + Wait + Sync>(
    rt: &R,
    alloc: Global,
    line: &str,
) -> Option<(u8, Vec<u8>, Vec<u8>)> {
    let mut words = Vec::new(alloc);
    for word in line.split(' ') {
        words.push(String::from_str(alloc, word).ok()?).ok()?;
    }
    let Some(asked) = parts_asked(&words) else {
        return None;
    };
    let mut files = MemoryFiles::new(alloc);
    let (mut out, mut err) = (Vec::new(alloc), Vec::new(alloc));
    let status = answer_parts(rt, alloc, &mut files, &asked, &mut out, &mut err);
    Some((status, out, err))
}

#[test]
fn answers_words(rt: HostRuntime) {
    for (line, wanted, out, err) in SAID {
        let (status, said, told) = said_of(&rt, rt.alloc(), line).expect(&rt, "an answer");
        assert!(rt; status == *wanted, "{line}");
        assert!(rt; said.as_slice() == out.as_bytes(), "{line}");
        assert!(rt; told.as_slice() == err.as_bytes(), "{line}");
    }
}
