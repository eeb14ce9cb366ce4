//! The commands one after another, and folders that are refused.

use crate::parts::day::files;
use app_jobs::serial_batch;
use app_parts::{answer_parts, parts_asked};
use file_batch::Strictness;
use file_devices::{BatchNames, MemoryFiles};
use std::alloc::Global;
use std::process::Abort;
use std::sync::Wait;
use std::thread::Threads;

// Commands behind the program's name, one a line.
fn words_of(alloc: Global, line: &str) -> Option<Vec<String>> {
    let mut words = Vec::new(alloc);
    for word in line.split(' ') {
        words.push(String::from_str(alloc, word).ok()?).ok()?;
    }
    Some(words)
}

// What a command comes to: its status, and what it says on standard output and on standard error.
fn told<R: Threads + Wait + Sync>(
    rt: &R,
    alloc: Global,
    files: &mut MemoryFiles,
    line: &str,
) -> Option<(u8, Vec<u8>, Vec<u8>)> {
    let words = words_of(alloc, line)?;
    let Some(asked) = parts_asked(&words) else {
        return None;
    };
    let (mut out, mut err) = (Vec::new(alloc), Vec::new(alloc));
    let status = answer_parts(rt, alloc, files, &asked, &mut out, &mut err);
    Some((status, out, err))
}

fn done<R: Threads + Wait + Sync>(
    rt: &R,
    alloc: Global,
    files: &mut MemoryFiles,
    line: &str,
) -> bool {
    match told(rt, alloc, files, line) {
        Some((status, _, err)) => status == 0 && err.is_empty(),
        None => false,
    }
}

// Whether two files hold the same.
fn are_same(files: &MemoryFiles, one: &str, other: &str) -> bool {
    match (files.get(one), files.get(other)) {
        (Some(one), Some(other)) => one == other,
        _ => false,
    }
}

fn name_of(alloc: Global, name: &str) -> Option<String> {
    String::from_str(alloc, name).ok()
}

// Decides the batch one message after another.
fn serial<R: Threads + Wait + Sync>(rt: &R, alloc: Global, files: &mut MemoryFiles) -> Option<()> {
    let names = BatchNames {
        book: name_of(alloc, "book")?,
        batch: name_of(alloc, "batch")?,
        replies: name_of(alloc, "replies")?,
        new_book: name_of(alloc, "after")?,
    };
    serial_batch(rt, alloc, files, &names, Strictness::Lenient).ok()?;
    Some(())
}

// Puts the batch in three parts, and decides them, the last one first.
const THREE: &[&str] = &[
    "switch part book batch 3 parts",
    "switch decide parts 2",
    "switch decide parts 0",
    "switch decide parts 1",
];

// The file that is changed then, in whose place another is put, and how `join` refuses the folder.
const CHANGED: &[(&str, &str, &str)] = &[
    (
        "parts/plan",
        "book",
        "plan 1\nparts/plan: it is no plan of parts\n",
    ),
    (
        "parts/rest.book",
        "book",
        "plan 3\nparts/rest.book: its digest isn't that of the plan\n",
    ),
    (
        "parts/1.decided",
        "parts/0.decided",
        "part 1: 4\nparts/1.decided: it is of another plan, or of another part\n",
    ),
    (
        "parts/1.decided",
        "other/1.decided",
        "part 1: 4\nparts/1.decided: it is of another plan, or of another part\n",
    ),
    (
        "parts/2.replies",
        "parts/0.replies",
        "part 2: 5\nparts/2.replies: it isn't what was written when the part was decided\n",
    ),
    (
        "parts/0.newbook",
        "parts/0.book",
        "part 0: 5\nparts/0.newbook: it isn't what was written when the part was decided\n",
    ),
];

// The same of what `decide` refuses, of part 1.
const UNDECIDED: &[(&str, &str, &str)] = &[
    (
        "parts/plan",
        "batch",
        "plan 1\nparts/plan: it is no plan of parts\n",
    ),
    (
        "parts/1.book",
        "parts/0.book",
        "part 1: 2\nparts/1.book: its digest isn't that of the plan\n",
    ),
    (
        "parts/1.batch",
        "parts/0.batch",
        "part 1: 3\nparts/1.batch: its digest isn't that of the plan\n",
    ),
];

// Names of which one is of a file of the folder, and how `join` refuses them.
const OVER: &[(&str, &str)] = &[
    (
        "switch join parts parts/plan new",
        "REPLIES and FOLDER/plan are one file\n",
    ),
    (
        "switch join parts joined parts/rest.book",
        "NEWBOOK and FOLDER/rest.book are one file\n",
    ),
    (
        "switch join parts joined parts/2.book",
        "NEWBOOK and a part's book are one file\n",
    ),
    (
        "switch join parts joined parts/0.batch",
        "NEWBOOK and a part's batch are one file\n",
    ),
    (
        "switch join parts parts/2.replies new",
        "REPLIES and a part's replies are one file\n",
    ),
    (
        "switch join parts joined parts/1.newbook",
        "NEWBOOK and a part's new book are one file\n",
    ),
    (
        "switch join parts parts/0.decided new",
        "REPLIES and a part's K.decided are one file\n",
    ),
];

// Decides the parts of another folder, where the batch is in two.
const TWO: &[&str] = &[
    "switch part book batch 2 other",
    "switch decide other 0",
    "switch decide other 1",
];

#[test]
fn parts_are_one_run(rt: HostRuntime) {
    let mut files = files(rt.alloc()).expect(&rt, "room");
    serial(&rt, rt.alloc(), &mut files).expect(&rt, "a run");
    for line in THREE {
        assert!(rt; done(&rt, rt.alloc(), &mut files, line), "{line}");
    }
    assert!(rt; done(&rt, rt.alloc(), &mut files, "switch join parts joined new"));
    assert!(rt; are_same(&files, "joined", "replies"));
    assert!(rt; are_same(&files, "new", "after"));
    for line in TWO {
        assert!(rt; done(&rt, rt.alloc(), &mut files, line), "{line}");
    }
    assert!(rt;
        done(
            &rt,
            rt.alloc(),
            &mut files,
            "switch join other joined2 new2"
        )
    );
    assert!(rt; are_same(&files, "joined2", "replies"));
    assert!(rt; are_same(&files, "new2", "after"));
}

#[test]
fn one_part_is_the_batch(rt: HostRuntime) {
    let mut files = files(rt.alloc()).expect(&rt, "room");
    let (status, out, err) = told(
        &rt,
        rt.alloc(),
        &mut files,
        "switch part book batch 1 parts",
    )
    .expect(&rt, "an answer");
    assert!(rt; status == 0 && err.is_empty());
    assert!(rt; out.as_slice() == b"part 0: 8 messages, 6 rows\n".as_slice());
    assert!(rt; are_same(&files, "parts/0.batch", "batch"));
}

// Copies a file over another.
fn copied(alloc: Global, files: &mut MemoryFiles, to: &str, from: &str) -> Option<()> {
    let bytes = Vec::from_slice(alloc, files.get(from)?).ok()?;
    files.put(to, bytes).ok()?;
    Some(())
}

// Whether a command is refused with these words, and neither of these files is made.
fn is_refused<R: Threads + Wait + Sync>(
    rt: &R,
    alloc: Global,
    files: &mut MemoryFiles,
    line: &str,
    said: &str,
) -> bool {
    match told(rt, alloc, files, line) {
        Some((1, out, err)) => {
            out.is_empty() && err.as_slice() == said.as_bytes() && files.get("joined").is_none()
        }
        _ => false,
    }
}

#[test]
fn refuses_changed_folders(rt: HostRuntime) {
    for (to, from, said) in CHANGED {
        let mut files = files(rt.alloc()).expect(&rt, "room");
        for line in THREE {
            assert!(rt; done(&rt, rt.alloc(), &mut files, line), "{line}");
        }
        for line in TWO {
            assert!(rt; done(&rt, rt.alloc(), &mut files, line), "{line}");
        }
        copied(rt.alloc(), &mut files, to, from).expect(&rt, "a file");
        assert!(rt;
            is_refused(
                &rt,
                rt.alloc(),
                &mut files,
                "switch join parts joined new",
                said
            ),
            "{to} {from}"
        );
    }
}

#[test]
fn refuses_changed_parts(rt: HostRuntime) {
    for (to, from, said) in UNDECIDED {
        let mut files = files(rt.alloc()).expect(&rt, "room");
        assert!(rt; done(&rt, rt.alloc(), &mut files, THREE[0]));
        copied(rt.alloc(), &mut files, to, from).expect(&rt, "a file");
        assert!(rt;
            is_refused(&rt, rt.alloc(), &mut files, "switch decide parts 1", said),
            "{to} {from}"
        );
    }
}

#[test]
fn joins_over_no_file_of_the_folder(rt: HostRuntime) {
    let mut files = files(rt.alloc()).expect(&rt, "room");
    for line in THREE {
        assert!(rt; done(&rt, rt.alloc(), &mut files, line), "{line}");
    }
    for (line, said) in OVER {
        let (status, out, err) = told(&rt, rt.alloc(), &mut files, line).expect(&rt, "an answer");
        assert!(rt; status == 2 && out.is_empty(), "{line}");
        assert!(rt; err.as_slice() == said.as_bytes(), "{line}");
        assert!(rt;
            files.get("joined").is_none() && files.get("new").is_none(),
            "{line}"
        );
    }
    // What was refused left the folder as it was, and a part that the plan hasn't is no file of it.
    assert!(rt;
        done(
            &rt,
            rt.alloc(),
            &mut files,
            "switch join parts joined parts/3.newbook"
        )
    );
}

// What `part`, `decide` and `join` say where files or folders are missing, or are others.
const MISSING: &[(&str, &str)] = &[
    (
        "switch part none batch 2 parts",
        "file 1\nnone: no such file or directory\n",
    ),
    (
        "switch part book none 2 parts",
        "file 1\nnone: no such file or directory\n",
    ),
    (
        "switch part text batch 2 parts",
        "book 1\ntext: line 1, column 1: no JSON\n",
    ),
    (
        "switch part book book 2 parts",
        "batch 1\nbook: it doesn't begin with I83B, the letters of a batch\n",
    ),
    (
        "switch decide parts 0",
        "file 1\nparts/plan: no such file or directory\n",
    ),
    (
        "switch join parts joined new",
        "file 1\nparts/plan: no such file or directory\n",
    ),
];

#[test]
fn refuses_what_is_missing(rt: HostRuntime) {
    let mut files = files(rt.alloc()).expect(&rt, "room");
    let text = Vec::from_slice(rt.alloc(), b"no book").expect(&rt, "room");
    files.put("text", text).expect(&rt, "room");
    for (line, said) in MISSING {
        assert!(rt;
            is_refused(&rt, rt.alloc(), &mut files, line, said),
            "{line}"
        );
    }
}

#[test]
fn refuses_parts_that_are_not_there(rt: HostRuntime) {
    let mut files = files(rt.alloc()).expect(&rt, "room");
    assert!(rt; done(&rt, rt.alloc(), &mut files, THREE[0]));
    assert!(rt;
        is_refused(
            &rt,
            rt.alloc(),
            &mut files,
            "switch decide parts 3",
            "plan 2\nparts/plan: it has 3 parts, numbered from 0\n"
        )
    );
    assert!(rt; done(&rt, rt.alloc(), &mut files, THREE[2]));
    assert!(rt;
        is_refused(
            &rt,
            rt.alloc(),
            &mut files,
            "switch join parts joined new",
            "part 1: 1\nparts/1.replies: no such file or directory: the part isn't decided yet\n"
        )
    );
}
