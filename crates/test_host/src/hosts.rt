//! Hosts over their files: the words that ask for one, and hosts that are opened again on their log.

use crate::fixtures::{CopiedLogs, copy_of, files, open, serve_link};
use crate::vectors::{FIRST, FIRST_REPLY, LINK, NO_MESSAGE, REPEAT, REPLIES, SECOND, SECOND_REPLY};
use file_devices::{FailingSink, HostFiles, Source};
use host_commands::{HostAsked, HostLogs, OpeningFault, Settings, host_asked, serve};
use host_serving::{MaxBatch, StatsInterval};
use issuer_rows::Book;
use log_file::LogFault;
use std::alloc::Global;
use std::fs;
use std::sync::Wait;
use std::test::Fail;
use std::thread::Threads;
use test_fixtures::{first_book_with, has_row};

// Whether a host serves the first link, and one that is opened on its log answers the second one so.
fn goes_on<R: Threads + Wait + Sync>(
    rt: &R,
    alloc: Global,
    book: &Book,
    first: &[u8],
    second: &[u8],
    reply: &[u8],
) -> bool {
    let Some((log, _)) = serve_link(rt, alloc, book, Vec::new(alloc), first) else {
        return false;
    };
    match serve_link(rt, alloc, book, log, second) {
        Some((_, replies)) => replies.as_slice() == reply,
        None => false,
    }
}

#[test]
fn a_host_goes_on_where_its_log_ends(rt: HostRuntime) -> Result<(), Fail> {
    let book = first_book_with(rt.alloc(), &[])?;
    assert!(rt; goes_on(&rt, rt.alloc(), &book, FIRST, REPEAT, FIRST_REPLY));
    assert!(rt; goes_on(&rt, rt.alloc(), &book, FIRST, SECOND, SECOND_REPLY));
    assert!(rt; goes_on(&rt, rt.alloc(), &book, FIRST, NO_MESSAGE, b""));
    Ok(())
}

// The log of a host that served the link of three bodies, one of which is no message.
fn log_of_three<R: Threads + Wait + Sync>(rt: &R, alloc: Global, book: &Book) -> Option<Vec<u8>> {
    let (log, replies) = serve_link(rt, alloc, book, Vec::new(alloc), LINK)?;
    if replies.as_slice() == REPLIES {
        Some(log)
    } else {
        None
    }
}

#[test]
fn a_host_is_opened_on_the_book_after_its_log(rt: HostRuntime) -> Result<(), Fail> {
    let book = first_book_with(rt.alloc(), &[])?;
    let log = log_of_three(&rt, rt.alloc(), &book).expect(&rt, "a log");
    let opened = open(&rt, rt.alloc(), &book, log).ok().expect(&rt, "a host");
    assert!(rt; opened.entries == 1 && opened.torn == 0);
    assert!(rt; has_row(opened.host.decider().book(), "account A 9900 978"));
    Ok(())
}

// With seven bytes behind its last entry.
#[test]
fn a_torn_tail_is_cut(rt: HostRuntime) -> Result<(), Fail> {
    let book = first_book_with(rt.alloc(), &[])?;
    let mut log = log_of_three(&rt, rt.alloc(), &book).expect(&rt, "a log");
    log.extend_from_slice(b"\x00\x00\x00\x66\xff\xff\xff")
        .expect(&rt, "room");
    let opened = open(&rt, rt.alloc(), &book, log).ok().expect(&rt, "a host");
    assert!(rt; opened.entries == 1 && opened.torn == 7);
    Ok(())
}

// The fault of a log that has one byte changed.
fn fault_with<R: Threads + Wait + Sync>(
    rt: &R,
    alloc: Global,
    book: &Book,
    mut log: Vec<u8>,
    at: usize,
) -> Option<OpeningFault> {
    let byte = log.get_mut(at)?;
    *byte ^= 1;
    open(rt, alloc, book, log).err()
}

#[test]
fn another_log_is_refused(rt: HostRuntime) -> Result<(), Fail> {
    let book = first_book_with(rt.alloc(), &[])?;
    let letters = log_of_three(&rt, rt.alloc(), &book).expect(&rt, "a log");
    assert!(rt;
        fault_with(&rt, rt.alloc(), &book, letters, 0) == Some(OpeningFault::Log(LogFault::NoLog))
    );
    let version = log_of_three(&rt, rt.alloc(), &book).expect(&rt, "a log");
    assert!(rt;
        fault_with(&rt, rt.alloc(), &book, version, 5) == Some(OpeningFault::Log(LogFault::Version))
    );
    let digest = log_of_three(&rt, rt.alloc(), &book).expect(&rt, "a log");
    assert!(rt;
        fault_with(&rt, rt.alloc(), &book, digest, 6)
            == Some(OpeningFault::Log(LogFault::OtherBook))
    );
    let size = log_of_three(&rt, rt.alloc(), &book).expect(&rt, "a log");
    assert!(rt;
        fault_with(&rt, rt.alloc(), &book, size, 41) == Some(OpeningFault::Log(LogFault::Broken(0)))
    );
    Ok(())
}

// The status of `serve` on the files of the first book, with the log in these bytes; what it wrote; and what it said.
pub(crate) fn served<R: Threads + Wait + Copy + Sync, S: Source + Send>(
    rt: &R,
    alloc: Global,
    book: &Book,
    log: Vec<u8>,
    name: &str,
    settings: Settings,
    source: &mut S,
) -> Option<(u8, Vec<u8>, Vec<u8>)> {
    let files = files(alloc, book)?;
    let logs = CopiedLogs {
        alloc,
        bytes: log,
        answers: 1000,
    };
    let mut sink = FailingSink::new(alloc, 4096, 1000);
    let mut said = Vec::new(alloc);
    let status = serve(
        rt, alloc, &files, &logs, name, "log", settings, source, &mut sink, &mut said,
    );
    Some((status, copy_of(alloc, sink.taken())?, said))
}

// Whether `serve` returns this status, writes this and says that.
fn is_served<R: Threads + Wait + Copy + Sync>(
    rt: &R,
    alloc: Global,
    book: &Book,
    name: &str,
    mut link: &[u8],
    outcome: (u8, &[u8], &[u8]),
) -> bool {
    match served(
        rt,
        alloc,
        book,
        Vec::new(alloc),
        name,
        Settings::plain(),
        &mut link,
    ) {
        Some((status, replies, said)) => {
            status == outcome.0 && replies.as_slice() == outcome.1 && said.as_slice() == outcome.2
        }
        None => false,
    }
}

#[test]
fn a_link_is_served_over_files(rt: HostRuntime) -> Result<(), Fail> {
    let book = first_book_with(rt.alloc(), &[])?;
    assert!(rt;
        is_served(
            &rt,
            rt.alloc(),
            &book,
            "book",
            LINK,
            (0, REPLIES, b"unreadable 1 F01000\n")
        )
    );
    let absent: &[u8] = b"file 1\nnone: no such file or directory\n";
    assert!(rt; is_served(&rt, rt.alloc(), &book, "none", LINK, (1, b"", absent)));
    assert!(rt;
        is_served(
            &rt,
            rt.alloc(),
            &book,
            "book",
            b"\x00\x00",
            (1, b"", b"link 2\n")
        )
    );
    assert!(rt;
        is_served(
            &rt,
            rt.alloc(),
            &book,
            "book",
            b"\x00",
            (1, b"", b"link 1\n")
        )
    );
    Ok(())
}

#[test]
fn a_fault_of_the_log_is_told_with_its_place(rt: HostRuntime) -> Result<(), Fail> {
    let book = first_book_with(rt.alloc(), &[])?;
    let mut log = log_of_three(&rt, rt.alloc(), &book).expect(&rt, "a log");
    *log.get_mut(41).expect(&rt, "a byte") ^= 1;
    let mut link = LINK;
    let plain = Settings::plain();
    let outcome = served(&rt, rt.alloc(), &book, log, "book", plain, &mut link);
    let (status, replies, said) = outcome.expect(&rt, "an outcome");
    assert!(rt; status == 1 && replies.is_empty());
    let told: &[u8] = b"log 5\nlog: behind 0 whole entries: no entry and no torn tail\n";
    assert!(rt; said.as_slice() == told);
    Ok(())
}

// Over files of the host.
#[test]
fn a_host_without_a_book_makes_no_log(rt: HostRuntime) -> Result<(), Fail> {
    let _ = fs::remove_dir_all(&rt, "no_book");
    fs::create_dir(&rt, "no_book")?;
    let mut said = Vec::new(rt.alloc());
    let status = serve(
        &rt,
        rt.alloc(),
        &HostFiles::new(rt, rt.alloc()),
        &HostLogs::new(rt),
        "no_book/book",
        "no_book/log",
        Settings::plain(),
        &mut b"".as_slice(),
        &mut FailingSink::new(rt.alloc(), 4096, 1000),
        &mut said,
    );
    let absent: &[u8] = b"file 1\nno_book/book: no such file or directory\n";
    assert!(rt; status == 1 && said.as_slice() == absent);
    assert!(rt; fs::metadata(&rt, "no_book/log").is_err());
    fs::remove_dir_all(&rt, "no_book")?;
    Ok(())
}

// The words of this line.
pub(crate) fn words_of(alloc: Global, line: &str) -> Option<Vec<String>> {
    let mut words = Vec::new(alloc);
    for word in line.split(' ') {
        words.push(String::from_str(alloc, word).ok()?).ok()?;
    }
    Some(words)
}

// What these words ask for: s serve, h help, w something else behind `serve`, - nothing of a host.
fn asked(alloc: Global, line: &str) -> Option<char> {
    let words = words_of(alloc, line)?;
    match host_asked(&words) {
        Some(HostAsked::Serve(book, log, _)) if book == "b" && log == "l" => Some('s'),
        Some(HostAsked::Help) => Some('h'),
        Some(_) => Some('w'),
        None => Some('-'),
    }
}

#[test]
fn words_ask_for_a_host(rt: HostRuntime) -> Result<(), Fail> {
    let book = first_book_with(rt.alloc(), &[])?;
    assert!(rt; asked(rt.alloc(), "switch serve b l") == Some('s'));
    assert!(rt; asked(rt.alloc(), "switch serve --help") == Some('h'));
    assert!(rt; asked(rt.alloc(), "switch serve") == Some('w'));
    assert!(rt; asked(rt.alloc(), "switch serve b l more") == Some('w'));
    assert!(rt; asked(rt.alloc(), "switch serial b l") == Some('-'));
    Ok(())
}

// Whether these words ask to serve by these settings.
fn asks_for(alloc: Global, line: &str, most: u32, every: Option<u64>) -> bool {
    let Some(words) = words_of(alloc, line) else {
        return false;
    };
    let stats = match every {
        Some(bodies) => StatsInterval::new(bodies),
        None => None,
    };
    match host_asked(&words) {
        Some(HostAsked::Serve(_, _, settings)) => {
            settings.max_batch.count() == most && settings.stats == stats
        }
        _ => false,
    }
}

#[test]
fn words_behind_the_names_say_how_to_serve(rt: HostRuntime) {
    assert!(rt; asks_for(rt.alloc(), "switch serve b l", 65_536, None));
    assert!(rt; asks_for(rt.alloc(), "switch serve b l --max-batch 1", 1, None));
    assert!(rt; asks_for(rt.alloc(), "switch serve b l --stats 9", 65_536, Some(9)));
    let both = "switch serve b l --max-batch 65536 --stats 1";
    assert!(rt; asks_for(rt.alloc(), both, 65_536, Some(1)));
    let turned = "switch serve b l --stats 7 --max-batch 2";
    assert!(rt; asks_for(rt.alloc(), turned, 2, Some(7)));
}

#[test]
fn settings_out_of_bounds_are_wrong(rt: HostRuntime) {
    for wrong in [
        "switch serve b l --max-batch",
        "switch serve b l --max-batch 0",
        "switch serve b l --max-batch 65537",
        "switch serve b l --stats 0",
        "switch serve b l --stats x",
        "switch serve b l --most 5",
        "switch serve b l --stats 5 --stats 5",
    ] {
        assert!(rt; asked(rt.alloc(), wrong) == Some('w'));
    }
}

// What a host says that serves this link in turns of one frame, and tells after each second body how it goes; its log is this one.
fn told<R: Threads + Wait + Copy + Sync>(
    rt: &R,
    alloc: Global,
    book: &Book,
    log: Vec<u8>,
    mut link: &[u8],
) -> Option<Vec<u8>> {
    let settings = Settings {
        max_batch: MaxBatch::new(1)?,
        stats: StatsInterval::new(2),
    };
    let (_, _, said) = served(rt, alloc, book, log, "book", settings, &mut link)?;
    Some(said)
}

// The second of three bodies is no message, and each is an entry; of a log that has these three in one entry, the fifth is the next.
#[test]
fn a_host_tells_what_it_skips_and_how_it_goes(rt: HostRuntime) -> Result<(), Fail> {
    let book = first_book_with(rt.alloc(), &[])?;
    let said = told(&rt, rt.alloc(), &book, Vec::new(rt.alloc()), LINK).expect(&rt, "a host");
    let lines: &[u8] = b"unreadable 1 F01000\ndecided 2, 1 unreadable, 2 entries\n";
    assert!(rt; said.as_slice() == lines);
    let log = log_of_three(&rt, rt.alloc(), &book).expect(&rt, "a log");
    let again = told(&rt, rt.alloc(), &book, log, LINK).expect(&rt, "a host");
    let more: &[u8] =
        b"decided 4, 1 unreadable, 2 entries\nunreadable 4 F01000\ndecided 6, 2 unreadable, 4 entries\n";
    assert!(rt; again.as_slice() == more);
    Ok(())
}
