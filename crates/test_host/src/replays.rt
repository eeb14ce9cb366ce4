//! Logs that are decided again: their replies in blocks, and the next day's book.

use crate::fixtures::{copy_of, files, serve_link};
use crate::hosts::words_of;
use crate::vectors::{FIRST, LINK, SECOND};
use app_jobs::serial_batch;
use book_json::read_book;
use file_batch::Strictness;
use file_devices::{BatchNames, Broken, HostFiles, MemoryFiles};
use issuer_rows::Book;
use log_commands::{
    HostLockedLogs, LockedLog, LockedLogs, LogAsked, LogNames, audit_log, audit_log_asked, replay,
    replay_asked,
};
use log_file::OpenFault;
use std::alloc::Global;
use std::fs;
use std::sync::Wait;
use std::test::Fail;
use std::thread::Threads;
use test_fixtures::{first_book_with, has_row};

// A log in memory.
#[derive(Drop)]
struct OpenLog {
    bytes: Vec<u8>,
}

impl LockedLog for OpenLog {
    ghost is_known = { λ _. ⊥ };

    ghost bytes = { λ log. log.bytes.items };

    ghost may_fail = { λ _. Unit {0} };

    fn read_at(&self, at: u64, buffer: &mut [u8]) -> Result<usize, Broken> {
        let start = self.bytes.len().min(at as usize);
        let (_, rest) = self.bytes.split_at(start);
        let count = rest.len().min(buffer.len());
        let (front, _) = rest.split_at(count);
        buffer[..count].copy_from_slice(front);
        Ok(count)
    }
}

// The log of the name `log` alone, which has these bytes. A host has the one of the name `used`.
#[derive(Drop)]
struct OneLog {
    alloc: Global,
    bytes: Vec<u8>,
}

impl LockedLogs for OneLog {
    type Log = OpenLog;

    ghost holds = { λ _ _ _. ⊥ };

    ghost reading = { λ _ _. Unit {0} };

    ghost in_use = { λ _ _. Unit {0} };

    fn open(&self, name: &str) -> Result<OpenLog, OpenFault> {
        match name {
            "log" => match copy_of(self.alloc, &self.bytes) {
                Some(bytes) => Ok(OpenLog { bytes }),
                None => Err(OpenFault::OutOfMemory),
            },
            "used" => Err(OpenFault::InUse),
            _ => Err(OpenFault::Refused),
        }
    }
}

// The reply file of the link of three bodies, which are one block: the request's reply, the fault of a body of three bytes, and the same
// reply to the repeat.
const REPLIES: &[u8] =
    b"I83T\x00\x01\x00\x00\x00\x01\x00\x00\x00\x03\x00\x69R1110\x72\x30\x00\x01\x06\x80\x80\x00164111110000000005000000000000000100011012000000000126011012000006123456000001000TERM0001978\x00\x06F01000\x00\x69R1110\x72\x30\x00\x01\x06\x80\x80\x00164111110000000005000000000000000100011012000000000126011012000006123456000001000TERM0001978";

// That of a log without messages.
const NO_REPLIES: &[u8] = b"I83T\x00\x01\x00\x00\x00\x00";

// What is said of a file that doesn't begin as a log.
const NO_LOG: &str =
    "log 1\nlog: it doesn't begin with the head of a log, which has 38 bytes, the first of them I83L\n";

// The log of a host that served these links, one after another, each started again on it.
fn log_of<R: Threads + Wait + Sync>(
    rt: &R,
    alloc: Global,
    book: &Book,
    links: &[&[u8]],
) -> Option<Vec<u8>> {
    let mut log = Vec::new(alloc);
    for link in links {
        (log, _) = serve_link(rt, alloc, book, log, link)?;
    }
    Some(log)
}

// What `replay` returns and says with these files and this log.
fn replayed<R: Threads + Wait + Sync>(
    rt: &R,
    alloc: Global,
    files: &mut MemoryFiles,
    log: &[u8],
    names: &LogNames<'_>,
) -> Option<(u8, Vec<u8>)> {
    let logs = OneLog {
        alloc,
        bytes: copy_of(alloc, log)?,
    };
    let mut said = Vec::new(alloc);
    let status = replay(rt, alloc, files, &logs, names, &mut said);
    Some((status, said))
}

// These names of files in memory.
fn names<'a>(book: &'a str, log: &'a str, replies: &'a str, new_book: &'a str) -> LogNames<'a> {
    LogNames {
        book,
        log,
        replies,
        new_book,
    }
}

// The bytes, with another one at this place.
fn changed_at(alloc: Global, bytes: &[u8], place: usize) -> Option<Vec<u8>> {
    let mut changed = copy_of(alloc, bytes)?;
    *changed.get_mut(place)? ^= 1;
    Some(changed)
}

// Whether `replay` of this log, on this book, returns this status and says this; nothing is written then but with status 0.
fn ends<R: Threads + Wait + Sync>(
    rt: &R,
    alloc: Global,
    book: &Book,
    log: &[u8],
    names: &LogNames<'_>,
    outcome: (u8, &[u8]),
) -> Option<bool> {
    let mut files = files(alloc, book)?;
    let (status, said) = replayed(rt, alloc, &mut files, log, names)?;
    let is_written = files.get("replies").is_some() || files.get("after").is_some();
    Some(status == outcome.0 && said.as_slice() == outcome.1 && is_written == (outcome.0 == 0))
}

#[test]
fn a_log_is_decided_again(rt: HostRuntime) -> Result<(), Fail> {
    let alloc = rt.alloc();
    let book = first_book_with(alloc, &[])?;
    let log = log_of(&rt, alloc, &book, &[LINK]).expect(&rt, "a log");
    let mut files = files(alloc, &book).expect(&rt, "files");
    let outcome = replayed(
        &rt,
        alloc,
        &mut files,
        &log,
        &names("book", "log", "replies", "after"),
    );
    let (status, said) = outcome.expect(&rt, "an outcome");
    assert!(rt; status == 0 && said.is_empty());
    assert!(rt; files.get("replies") == Some(REPLIES));
    let after = files.get("after").expect(&rt, "a book");
    let after = read_book(&rt, alloc, after).ok().expect(&rt, "a book");
    assert!(rt; has_row(&after, "account A 9900 978"));
    Ok(())
}

// What is behind the heads of a reply file and of a block reply file of one block.
fn bodies_of<'a>(files: &'a MemoryFiles, name: &str, head: usize) -> Option<&'a [u8]> {
    files.get(name)?.get(head..)
}

// Three entries, of a host that was started twice again: their replies and the book are those of their messages as one batch.
#[test]
fn a_log_gives_what_serial_gives(rt: HostRuntime) -> Result<(), Fail> {
    let alloc = rt.alloc();
    let book = first_book_with(alloc, &[])?;
    let log = log_of(&rt, alloc, &book, &[LINK, SECOND, FIRST]).expect(&rt, "a log");
    let mut files = files(alloc, &book).expect(&rt, "files");
    let mut batch = Vec::new(alloc);
    for part in [
        b"I83B\x00\x01\x00\x00\x00\x05".as_slice(),
        LINK,
        SECOND,
        FIRST,
    ] {
        batch.extend_from_slice(part).expect(&rt, "room");
    }
    let _ = files.put("batch", batch).expect(&rt, "room");
    let serial = BatchNames {
        book: String::from_str(alloc, "book")?,
        batch: String::from_str(alloc, "batch")?,
        replies: String::from_str(alloc, "serial replies")?,
        new_book: String::from_str(alloc, "serial after")?,
    };
    assert!(rt; serial_batch(&rt, alloc, &mut files, &serial, Strictness::Lenient).is_ok());
    let names = names("book", "log", "replies", "after");
    let outcome = replayed(&rt, alloc, &mut files, &log, &names);
    assert!(rt; matches!(outcome, Some((0, _))));
    assert!(rt; bodies_of(&files, "replies", 14) == bodies_of(&files, "serial replies", 10));
    assert!(rt; files.get("after") == files.get("serial after"));
    Ok(())
}

#[test]
fn a_torn_tail_is_left_out_and_told(rt: HostRuntime) -> Result<(), Fail> {
    let alloc = rt.alloc();
    let book = first_book_with(alloc, &[])?;
    let names = names("book", "log", "replies", "after");
    let mut log = log_of(&rt, alloc, &book, &[LINK]).expect(&rt, "a log");
    log.extend_from_slice(b"\x00\x00\x00\x66\xff\xff\xff")
        .expect(&rt, "room");
    assert!(rt; ends(&rt, alloc, &book, &log, &names, (0, b"torn 7\n")) == Some(true));
    Ok(())
}

#[test]
fn a_log_without_messages_gives_no_block(rt: HostRuntime) -> Result<(), Fail> {
    let alloc = rt.alloc();
    let book = first_book_with(alloc, &[])?;
    let log = log_of(&rt, alloc, &book, &[b""]).expect(&rt, "a log");
    let mut files = files(alloc, &book).expect(&rt, "files");
    let names = names("book", "log", "replies", "after");
    let outcome = replayed(&rt, alloc, &mut files, &log, &names);
    assert!(rt; matches!(outcome, Some((0, _))));
    assert!(rt; files.get("replies") == Some(NO_REPLIES));
    assert!(rt; files.get("after") == files.get("book"));
    Ok(())
}

#[test]
fn faults_are_told_and_nothing_is_written(rt: HostRuntime) -> Result<(), Fail> {
    let alloc = rt.alloc();
    let book = first_book_with(alloc, &[])?;
    let log = log_of(&rt, alloc, &book, &[LINK]).expect(&rt, "a log");
    let good = names("book", "log", "replies", "after");
    let used = names("book", "used", "replies", "after");
    let none = names("book", "none", "replies", "after");
    let no_book = names("none", "log", "replies", "after");
    let twice = log_of(&rt, alloc, &book, &[LINK, SECOND]).expect(&rt, "a log");
    let other = changed_at(alloc, &log, 6).expect(&rt, "a byte");
    let broken = changed_at(alloc, &log, 41).expect(&rt, "a byte");
    let later = changed_at(alloc, &twice, log.len() + 3).expect(&rt, "a byte");
    let cases: [(&[u8], &LogNames<'_>, &str); 7] = [
        (b"", &good, NO_LOG),
        (
            &other,
            &good,
            "log 3\nlog: byte 6: the digest of another book\n",
        ),
        (
            &broken,
            &good,
            "log 5\nlog: behind 0 whole entries: no entry and no torn tail\n",
        ),
        (
            &later,
            &good,
            "log 5\nlog: behind 1 whole entries: no entry and no torn tail\n",
        ),
        (&log, &used, "log 4\nused: in use by another program\n"),
        (&log, &none, "log 6\nnone: no such file or directory\n"),
        (&log, &no_book, "file 1\nnone: no such file or directory\n"),
    ];
    for (log, names, said) in cases {
        assert!(rt; ends(&rt, alloc, &book, log, names, (1, said.as_bytes())) == Some(true));
    }
    Ok(())
}

#[test]
fn names_of_one_file_are_refused(rt: HostRuntime) -> Result<(), Fail> {
    let alloc = rt.alloc();
    let book = first_book_with(alloc, &[])?;
    let pairs = [
        ("same", "same", "REPLIES and NEWBOOK are one file: same\n"),
        ("book", "after", "REPLIES and BOOK are one file: book\n"),
        ("log", "after", "REPLIES and LOG are one file: log\n"),
        ("replies", "book", "NEWBOOK and BOOK are one file: book\n"),
        ("replies", "log", "NEWBOOK and LOG are one file: log\n"),
    ];
    for (replies, new_book, said) in pairs {
        let names = names("book", "log", replies, new_book);
        assert!(rt; ends(&rt, alloc, &book, b"", &names, (2, said.as_bytes())) == Some(true));
    }
    Ok(())
}

// The log and the book are files of the host; so are the replies and the next day's book then.
#[test]
fn a_log_of_the_host_is_decided_again(rt: HostRuntime) -> Result<(), Fail> {
    let alloc = rt.alloc();
    let book = first_book_with(alloc, &[])?;
    let log = log_of(&rt, alloc, &book, &[LINK]).expect(&rt, "a log");
    let held = files(alloc, &book).expect(&rt, "files");
    let _ = fs::remove_dir_all(&rt, "replayed");
    fs::create_dir(&rt, "replayed")?;
    fs::write(&rt, "replayed/log", log.as_slice())?;
    fs::write(&rt, "replayed/book", held.get("book").expect(&rt, "a book"))?;
    let names = names(
        "replayed/book",
        "replayed/log",
        "replayed/replies",
        "replayed/after",
    );
    let mut host = HostFiles::new(rt, alloc);
    let mut said = Vec::new(alloc);
    let status = replay(
        &rt,
        alloc,
        &mut host,
        &HostLockedLogs::new(rt),
        &names,
        &mut said,
    );
    assert!(rt; status == 0 && said.is_empty());
    assert!(rt; fs::read(&rt, "replayed/replies")?.as_slice() == REPLIES);
    assert!(rt; fs::read(&rt, "replayed/log")?.as_slice() == log.as_slice());
    fs::remove_dir_all(&rt, "replayed")?;
    Ok(())
}

#[test]
fn a_log_that_is_not_there_is_not_made(rt: HostRuntime) -> Result<(), Fail> {
    let _ = fs::remove_dir_all(&rt, "no_log");
    fs::create_dir(&rt, "no_log")?;
    let logs = HostLockedLogs::new(rt);
    assert!(rt; matches!(logs.open("no_log/log"), Err(OpenFault::Refused)));
    assert!(rt; matches!(logs.open("no_log"), Err(OpenFault::Refused)));
    assert!(rt; fs::metadata(&rt, "no_log/log").is_err());
    fs::remove_dir_all(&rt, "no_log")?;
    Ok(())
}

// Whether an audit of this log, with these files, returns this status and prints this, on its two outputs.
fn is_audited<R: Threads + Wait + Sync>(
    rt: &R,
    alloc: Global,
    files: &MemoryFiles,
    log: &[u8],
    outcome: (u8, &[u8], &[u8]),
) -> Option<bool> {
    let logs = OneLog {
        alloc,
        bytes: copy_of(alloc, log)?,
    };
    let names = names("book", "log", "replies", "after");
    let mut out = Vec::new(alloc);
    let mut err = Vec::new(alloc);
    let status = audit_log(rt, alloc, files, &logs, &names, &mut out, &mut err);
    Some(status == outcome.0 && out.as_slice() == outcome.1 && err.as_slice() == outcome.2)
}

#[test]
fn what_is_kept_of_a_log_is_audited(rt: HostRuntime) -> Result<(), Fail> {
    let alloc = rt.alloc();
    let book = first_book_with(alloc, &[])?;
    let log = log_of(&rt, alloc, &book, &[LINK]).expect(&rt, "a log");
    let mut files = files(alloc, &book).expect(&rt, "files");
    let absent: &[u8] = b"file 1\nreplies: no such file or directory\n";
    assert!(rt; is_audited(&rt, alloc, &files, &log, (1, b"", absent)) == Some(true));
    let good = names("book", "log", "replies", "after");
    let _ = replayed(&rt, alloc, &mut files, &log, &good).expect(&rt, "an outcome");
    assert!(rt; is_audited(&rt, alloc, &files, &log, (0, b"same\n", b"")) == Some(true));
    let older = copy_of(alloc, files.get("book").expect(&rt, "a book")).expect(&rt, "room");
    let _ = files.put("after", older).expect(&rt, "room");
    let mut found = Vec::new(alloc);
    let logs = OneLog {
        alloc,
        bytes: copy_of(alloc, &log).expect(&rt, "room"),
    };
    let status = audit_log(
        &rt,
        alloc,
        &files,
        &logs,
        &good,
        &mut found,
        &mut Vec::new(alloc),
    );
    assert!(rt; status == 3 && found.starts_with(b"row "));
    let none = copy_of(alloc, NO_REPLIES).expect(&rt, "room");
    let _ = files.put("replies", none).expect(&rt, "room");
    assert!(rt; is_audited(&rt, alloc, &files, &log, (3, b"count differs\n", b"")) == Some(true));
    let other = copy_of(alloc, b"I83R").expect(&rt, "room");
    let _ = files.put("replies", other).expect(&rt, "room");
    let letters: &[u8] =
        b"batch 1\nreplies: it begins with I83R, the letters of replies of a batch, where I83T is to be\n";
    assert!(rt; is_audited(&rt, alloc, &files, &log, (1, b"", letters)) == Some(true));
    let no_log = (1, b"".as_slice(), NO_LOG.as_bytes());
    assert!(rt; is_audited(&rt, alloc, &files, b"I83", no_log) == Some(true));
    Ok(())
}

#[test]
fn words_ask_for_an_audit_of_a_log(rt: HostRuntime) -> Result<(), Fail> {
    let alloc = rt.alloc();
    let mut words = Vec::new(alloc);
    for word in ["switch", "audit-log", "b", "l", "r", "n"] {
        words
            .push(String::from_str(alloc, word)?)
            .expect(&rt, "room");
    }
    assert!(rt; matches!(audit_log_asked(&words), Some(LogAsked::Files(_))));
    assert!(rt; replay_asked(&words).is_none());
    Ok(())
}

// What these words ask of `replay`: f files, h help, w something else behind it, - nothing.
fn asked(alloc: Global, line: &str) -> Option<char> {
    let words = words_of(alloc, line)?;
    match replay_asked(&words) {
        Some(LogAsked::Files(names))
            if names.book == "b"
                && names.log == "l"
                && names.replies == "r"
                && names.new_book == "n" => { Some('f') }
        Some(LogAsked::Help) => Some('h'),
        Some(_) => Some('w'),
        None => Some('-'),
    }
}

#[test]
fn words_ask_for_a_replay(rt: HostRuntime) -> Result<(), Fail> {
    assert!(rt; asked(rt.alloc(), "switch replay b l r n") == Some('f'));
    assert!(rt; asked(rt.alloc(), "switch replay --help") == Some('h'));
    assert!(rt; asked(rt.alloc(), "switch replay -h") == Some('h'));
    assert!(rt; asked(rt.alloc(), "switch replay b") == Some('w'));
    assert!(rt; asked(rt.alloc(), "switch replay b l r n more") == Some('w'));
    assert!(rt; asked(rt.alloc(), "switch serve b l") == Some('-'));
    Ok(())
}
