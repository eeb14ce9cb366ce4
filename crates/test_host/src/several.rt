//! Several links at one host, over devices in memory. What each gets doesn't depend on the order of their turns, or is told by the log.

use crate::fixtures::{CopiedLogs, copy_of, files, open, serve_link};
use crate::hosts::words_of;
use crate::vectors::{
    ECHO, ECHO_REPLY, FIRST, FIRST_REPLY, LINK, REPEAT, REPLIES, SECOND, SECOND_REPLY,
};
use file_devices::{FailingSink, FailingSource};
use host_commands::{AskedLinks, LinkNames, Settings, links_asked, serve_links};
use host_links::{LinksOutcome, Seat, serve_links as serve_at};
use host_serving::{HostFault, MaxBatch, Unwatched};
use issuer_rows::Book;
use issuer_rules::Shipped;
use link_frames::LinkFault;
use log_file::{LogFault, MemoryLog};
use std::alloc::Global;
use std::sync::Wait;
use std::test::Fail;
use std::thread::Threads;
use test_fixtures::{first_book_with, has_row};

// A link of these bytes, whose sink answers so many calls.
fn seat<'a>(alloc: Global, bytes: &'a [u8], answers: u64) -> Seat<FailingSource<'a>, FailingSink> {
    Seat::new(
        FailingSource::new(bytes, 64, 1000),
        FailingSink::new(alloc, 4096, answers),
    )
}

// Whether a link was written this, and stopped with this fault.
fn came_to(
    seat: &Seat<FailingSource<'_>, FailingSink>,
    replies: &[u8],
    fault: Option<HostFault>,
) -> bool {
    seat.sink().taken() == replies && seat.fault() == fault
}

// Serves links on the first book, with an empty log.
fn served<R: Threads + Wait + Sync>(
    rt: &R,
    alloc: Global,
    book: &Book,
    seats: &mut [Seat<FailingSource<'_>, FailingSink>],
) -> Option<LinksOutcome<MemoryLog, Unwatched>> {
    let opened = open(rt, alloc, book, Vec::new(alloc)).ok()?;
    let most = MaxBatch::whole_entry();
    Some(serve_at(rt, alloc, opened.host, Unwatched, seats, &Shipped, most))
}

#[test]
fn three_links_are_answered_each_on_its_own(rt: HostRuntime) -> Result<(), Fail> {
    let book = first_book_with(rt.alloc(), &[])?;
    let mut seats = vec![in rt.alloc();
        seat(rt.alloc(), LINK, 1000),
        seat(rt.alloc(), ECHO, 1000),
        seat(rt.alloc(), b"", 1000),
    ]?;
    let outcome = served(&rt, rt.alloc(), &book, &mut seats).expect(&rt, "a host");
    assert!(rt; outcome.has_all && outcome.fault.is_none());
    assert!(rt; came_to(&seats[0], REPLIES, None));
    assert!(rt; came_to(&seats[1], ECHO_REPLY, None));
    assert!(rt; came_to(&seats[2], b"", None));
    assert!(rt; has_row(outcome.host.decider().book(), "account A 9900 978"));
    assert!(rt; outcome.host.decider().tally().bodies == 3);
    Ok(())
}

// The replies to the first two requests where the second one was decided first: its card's approval codes go by that order.
const FIRST_LATE: &[u8] =
    b"\x00\x681110\x72\x30\x00\x01\x06\x80\x80\x00164111110000000005000000000000000100011012000000000126011012000006123456000002000TERM0001978";

const SECOND_EARLY: &[u8] =
    b"\x00\x681110\x72\x30\x00\x01\x06\x80\x80\x00164111110000000005000000000000000100011012000100000226011012000106123456000001000TERM0001978";

#[test]
fn two_links_of_one_card_are_answered_in_the_order_of_the_log(rt: HostRuntime) -> Result<(), Fail> {
    let book = first_book_with(rt.alloc(), &[])?;
    let mut seats = vec![in rt.alloc();
        seat(rt.alloc(), FIRST, 1000),
        seat(rt.alloc(), SECOND, 1000),
    ]?;
    let outcome = served(&rt, rt.alloc(), &book, &mut seats).expect(&rt, "a host");
    let in_order = came_to(&seats[0], FIRST_REPLY, None) && came_to(&seats[1], SECOND_REPLY, None);
    let turned = came_to(&seats[0], FIRST_LATE, None) && came_to(&seats[1], SECOND_EARLY, None);
    assert!(rt; in_order || turned);
    assert!(rt; has_row(outcome.host.decider().book(), "account A 9800 978"));
    let log = copy_of(rt.alloc(), outcome.host.log().file().synced()).expect(&rt, "a copy");
    let (_, replies) = serve_link(&rt, rt.alloc(), &book, log, REPEAT).expect(&rt, "a host");
    assert!(rt; replies.as_slice() == seats[0].sink().taken());
    Ok(())
}

#[test]
fn a_fault_of_one_link_ends_that_link_alone(rt: HostRuntime) -> Result<(), Fail> {
    let book = first_book_with(rt.alloc(), &[])?;
    let mut seats = vec![in rt.alloc();
        seat(rt.alloc(), &LINK[..101], 1000),
        seat(rt.alloc(), ECHO, 1000),
        seat(rt.alloc(), ECHO, 0),
    ]?;
    let outcome = served(&rt, rt.alloc(), &book, &mut seats).expect(&rt, "a host");
    assert!(rt; outcome.has_all && outcome.fault.is_none());
    assert!(rt;
        came_to(
            &seats[0],
            FIRST_REPLY,
            Some(HostFault::Link(LinkFault::Ended))
        )
    );
    assert!(rt; came_to(&seats[1], ECHO_REPLY, None));
    assert!(rt; came_to(&seats[2], b"", Some(HostFault::Link(LinkFault::Unwritable))));
    assert!(rt; has_row(outcome.host.decider().book(), "account A 9900 978"));
    Ok(())
}

// The names of two links.
const NAMES: [LinkNames<'static>; 2] = [
    LinkNames {
        input: "a",
        output: "A",
    },
    LinkNames {
        input: "b",
        output: "B",
    },
];

// The status of `serve_links` on the files of the first book, with a log whose file answers so many calls, and what it said.
fn said<R: Threads + Wait + Copy + Sync>(
    rt: &R,
    alloc: Global,
    book: &Book,
    answers: u64,
    seats: &mut [Seat<FailingSource<'_>, FailingSink>],
) -> Option<(u8, Vec<u8>)> {
    let files = files(alloc, book)?;
    let logs = CopiedLogs {
        alloc,
        bytes: Vec::new(alloc),
        answers,
    };
    let mut said = Vec::new(alloc);
    let settings = Settings::plain();
    let status = serve_links(
        rt, alloc, &files, &logs, "book", "log", settings, &NAMES, seats, &mut said,
    );
    Some((status, said))
}

#[test]
fn a_fault_of_a_link_is_told_with_its_name(rt: HostRuntime) -> Result<(), Fail> {
    let book = first_book_with(rt.alloc(), &[])?;
    let mut seats = vec![in rt.alloc();
        seat(rt.alloc(), ECHO, 1000),
        seat(rt.alloc(), &LINK[..101], 1000),
    ]?;
    let (status, said) = said(&rt, rt.alloc(), &book, 1000, &mut seats).expect(&rt, "files");
    assert!(rt; status == 1 && said.as_slice() == b"link 1 of b\n".as_slice());
    assert!(rt; came_to(&seats[0], ECHO_REPLY, None));
    Ok(())
}

// As it is begun it is cut, synced, written and synced again: four calls.
#[test]
fn a_fault_of_the_log_ends_all_links_and_is_told_once(rt: HostRuntime) -> Result<(), Fail> {
    let book = first_book_with(rt.alloc(), &[])?;
    let mut seats = vec![in rt.alloc();
        seat(rt.alloc(), FIRST, 1000),
        seat(rt.alloc(), SECOND, 1000),
    ]?;
    let (status, said) = said(&rt, rt.alloc(), &book, 4, &mut seats).expect(&rt, "files");
    assert!(rt; status == 1 && said.as_slice() == b"log 6\n".as_slice());
    let fault = Some(HostFault::Log(LogFault::Failed));
    assert!(rt; came_to(&seats[0], b"", fault) && came_to(&seats[1], b"", fault));
    Ok(())
}

#[test]
fn links_that_are_answered_have_status_0(rt: HostRuntime) -> Result<(), Fail> {
    let book = first_book_with(rt.alloc(), &[])?;
    let mut seats = vec![in rt.alloc();
        seat(rt.alloc(), LINK, 1000),
        seat(rt.alloc(), ECHO, 1000),
    ]?;
    let (status, said) = said(&rt, rt.alloc(), &book, 1000, &mut seats).expect(&rt, "files");
    assert!(rt; status == 0 && said.as_slice() == b"unreadable 1 F01000\n".as_slice());
    Ok(())
}

// Whether the last link has these names.
fn ends_with(links: &[LinkNames<'_>], input: &str, output: &str) -> bool {
    match links.last() {
        Some(link) => link.input == input && link.output == output,
        None => false,
    }
}

// Whether these words ask for so many links, with so many frames in a turn; and the last one has these names.
fn asks_for(alloc: Global, line: &str, count: usize, most: u32, input: &str, output: &str) -> bool {
    let Some(words) = words_of(alloc, line) else {
        return false;
    };
    match links_asked(alloc, &words) {
        Ok(Some(asked)) => is_asked(&asked, count, most) && ends_with(&asked.links, input, output),
        _ => false,
    }
}

// Whether it is asked on these files for so many links, with so many frames in a turn.
fn is_asked(asked: &AskedLinks<'_>, count: usize, most: u32) -> bool {
    asked.book == "b"
        && asked.log == "l"
        && asked.settings.max_batch.count() == most
        && asked.links.len() == count
}

#[test]
fn words_ask_for_links(rt: HostRuntime) {
    let alloc = rt.alloc();
    assert!(rt; asks_for(alloc, "switch serve b l --link i o", 1, 65_536, "i", "o"));
    let two = "switch serve b l --link i o --max-batch 3 --link j p";
    assert!(rt; asks_for(alloc, two, 2, 3, "j", "p"));
    let all = "switch serve b l --stats 7 --link i o --link j p --max-batch 2";
    assert!(rt; asks_for(alloc, all, 2, 2, "j", "p"));
}

// Whether these words ask for no links.
fn asks_none(alloc: Global, line: &str) -> bool {
    match words_of(alloc, line) {
        Some(words) => matches!(links_asked(alloc, &words), Ok(None)),
        None => false,
    }
}

#[test]
fn other_words_ask_for_no_links(rt: HostRuntime) {
    for wrong in [
        "switch serve b l --link i",
        "switch serve b l --link i i",
        "switch serve b l --link i o --link o p",
        "switch serve b l --link i o --link j i",
        "switch serve b l --link i o --stats 1 --stats 2",
        "switch serve b l --link i o --max-batch 0",
        "switch serve b l --link i o more",
        "switch serial b l --link i o",
    ] {
        assert!(rt; asks_none(rt.alloc(), wrong));
    }
}
