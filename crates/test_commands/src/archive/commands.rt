//! The command over files in memory: its statuses, what stands on standard output and standard error, and the books.

use crate::files::files_with;
use app_parts::{ArchiveAsked, ArchiveNames, answer_archive};
use file_devices::MemoryFiles;
use iso8583::Day;
use std::alloc::Global;
use std::process::Abort;

// Two originals and a day before the 10th of March, one original and a day on it, and the mark of a reversal that came ahead before both.
const BOOK: &str =
    r#"{"accounts":[{"available":100000,"currency":"978","id":"A"},{"available":500,"currency":"978","id":"B"}],"ahead":[{"acquirer":"123456","kind":"request","pan":"4111110000000005","reversal":{"acquirer":"123456","stamp":"260301070500","trace":"000906"},"stamp":"260301070000","trace":"000905"}],"budgets":[],"cards":[{"account":"A","approvals":2,"day_amount":20000,"day_count":3,"expiry":"2812","pan":"4111110000000005","second":"B","status":"active"}],"days":[{"count":1,"day":"260309","pan":"4111110000000005","sum":700},{"count":1,"day":"260310","pan":"4111110000000005","sum":900}],"originals":[{"account":"A","acquirer":"123456","action":"000","amount":700,"approval":"000001","kind":"request","paid":"account","pan":"4111110000000005","processing":"000000","reversed":null,"stamp":"260309100000","stay":700,"trace":"000001"},{"account":null,"acquirer":"123456","action":"116","amount":90000000,"approval":null,"kind":"request","paid":"nothing","pan":"4111110000000005","processing":"000000","reversed":null,"stamp":"260309235959","stay":0,"trace":"000002"},{"account":"B","acquirer":"123456","action":"000","amount":900,"approval":"000002","kind":"request","paid":"account","pan":"4111110000000005","processing":"000000","reversed":null,"stamp":"260310000000","stay":900,"trace":"000003"}],"version":3}"#;

// What stays of it.
const NEW_BOOK: &str =
    r#"{"accounts":[{"available":100000,"currency":"978","id":"A"},{"available":500,"currency":"978","id":"B"}],"ahead":[{"acquirer":"123456","kind":"request","pan":"4111110000000005","reversal":{"acquirer":"123456","stamp":"260301070500","trace":"000906"},"stamp":"260301070000","trace":"000905"}],"budgets":[],"cards":[{"account":"A","approvals":2,"day_amount":20000,"day_count":3,"expiry":"2812","pan":"4111110000000005","second":"B","status":"active"}],"days":[{"count":1,"day":"260310","pan":"4111110000000005","sum":900}],"originals":[{"account":"B","acquirer":"123456","action":"000","amount":900,"approval":"000002","kind":"request","paid":"account","pan":"4111110000000005","processing":"000000","reversed":null,"stamp":"260310000000","stay":900,"trace":"000003"}],"version":3}"#;

// What goes, with the account that paid.
const OLD: &str =
    r#"{"accounts":[{"available":100000,"currency":"978","id":"A"}],"ahead":[],"budgets":[],"cards":[],"days":[{"count":1,"day":"260309","pan":"4111110000000005","sum":700}],"originals":[{"account":"A","acquirer":"123456","action":"000","amount":700,"approval":"000001","kind":"request","paid":"account","pan":"4111110000000005","processing":"000000","reversed":null,"stamp":"260309100000","stay":700,"trace":"000001"},{"account":null,"acquirer":"123456","action":"116","amount":90000000,"approval":null,"kind":"request","paid":"nothing","pan":"4111110000000005","processing":"000000","reversed":null,"stamp":"260309235959","stay":0,"trace":"000002"}],"version":3}"#;

// Commands that are refused: the names of their files, the status, and what stands on standard error.
const REFUSED: &[(&str, &str, &str, u8, &str)] = &[
    (
        "absent",
        "new",
        "old",
        1,
        "file 1\nabsent: no such file or directory\n",
    ),
    (
        "none",
        "new",
        "old",
        1,
        "book 1\nnone: line 1, column 1: no JSON\n",
    ),
    ("book", "book", "old", 2, "NEWBOOK and BOOK are one file\n"),
    ("book", "new", "book", 2, "OLD and BOOK are one file\n"),
    ("book", "new", "new", 2, "NEWBOOK and OLD are one file\n"),
];

fn files(alloc: Global) -> Option<MemoryFiles> {
    files_with(alloc, &[("book", BOOK.as_bytes()), ("none", b"{")])
}

// Whether the file of this name holds this text.
fn holds(files: &MemoryFiles, name: &str, text: &str) -> bool {
    match files.get(name) {
        Some(bytes) => bytes == text.as_bytes(),
        None => false,
    }
}

#[test]
fn archives_a_book(rt: HostRuntime) {
    let mut files = files(rt.alloc()).expect(&rt, "room");
    let names = ArchiveNames {
        book: "book",
        new_book: "new",
        old: "old",
    };
    let asked = ArchiveAsked::Book(names, Day::new(b"260310").expect(&rt, "a day"));
    let (mut out, mut err) = (Vec::new(rt.alloc()), Vec::new(rt.alloc()));
    let status = answer_archive(&rt, rt.alloc(), &mut files, &asked, &mut out, &mut err);
    assert!(rt; status == 0);
    assert!(rt; out.as_slice() == b"archived 3, kept 6\n".as_slice());
    assert!(rt; err.is_empty());
    assert!(rt; holds(&files, "book", BOOK));
    assert!(rt; holds(&files, "new", NEW_BOOK));
    assert!(rt; holds(&files, "old", OLD));
}

#[test]
fn refuses_the_others(rt: HostRuntime) {
    for (book, new_book, old, wanted, said) in REFUSED {
        let mut files = files(rt.alloc()).expect(&rt, "room");
        let names = ArchiveNames {
            book,
            new_book,
            old,
        };
        let asked = ArchiveAsked::Book(names, Day::new(b"260310").expect(&rt, "a day"));
        let (mut out, mut err) = (Vec::new(rt.alloc()), Vec::new(rt.alloc()));
        let status = answer_archive(&rt, rt.alloc(), &mut files, &asked, &mut out, &mut err);
        assert!(rt; status == *wanted, "{book} {new_book} {old}");
        assert!(rt; out.is_empty(), "{book} {new_book} {old}");
        assert!(rt;
            err.as_slice() == said.as_bytes(),
            "{book} {new_book} {old}"
        );
        assert!(rt; holds(&files, "book", BOOK), "{book} {new_book} {old}");
        assert!(rt;
            files.get("new").is_none() && files.get("old").is_none(),
            "{book} {new_book} {old}"
        );
    }
}
