//! Links that are served over devices that fail at each call: nothing is answered that isn't in the log.

ghost use Rattle.std.specs.Prelude.{◌<◌};

use crate::vectors::{
    ECHO, ECHO_REPLY, FIRST, FIRST_REPLY, LINK, NO_MESSAGE, REPEAT, REPLIES, SECOND, SECOND_REPLY,
};
use file_devices::{FailingSink, FailingSource};
use host_serving::{Decider, Host, HostFault, MaxBatch, Tally, Unwatched};
use issuer_rows::Book;
use issuer_rules::Shipped;
use link_frames::LinkFault;
use log_file::{Begun, LogFault, LogWriter, MemoryLog, read_log};
use std::alloc::Global;
use std::test::Fail;
use std::thread::Threads;
use test_fixtures::{first_book_with, has_row};

// The digest of the opening book's text, as the log's header has it.
const BOOK: [u8; 32] = [7; 32];

// How many calls of the devices are answered.
#[derive(Clone, Copy)]
struct Answers {
    source: u64,
    sink: u64,
    log: u64,
}

const ALL: Answers = Answers {
    source: 1000,
    sink: 1000,
    log: 1000,
};

// What serving a link came to.
#[derive(Drop)]
struct Outcome {
    result: Result<(), HostFault>,
    replies: Vec<u8>,
    // What a crash keeps of the log: how many entries, and how many bodies in them.
    entries: usize,
    bodies: u32,
    tally: Tally,
}

// A host on the first book, with an empty log.
fn host(alloc: Global, book: &Book, answers: u64) -> Option<Host<MemoryLog>> {
    let book = book.copy().ok()?;
    let file = MemoryLog::new(Vec::new(alloc), 4096, answers);
    match LogWriter::begin(alloc, file, &BOOK).ok()? {
        Begun::New(log) => Some(Host::new(Decider::new(alloc, book), log)),
        Begun::Old(_) => None,
    }
}

// How many entries a log has, and how many bodies.
fn log_size(alloc: Global, bytes: &[u8]) -> Option<(usize, u32)> {
    let log = read_log(alloc, bytes, &BOOK).ok()?;
    let mut bodies: u32 = 0;
    for entry in &log.entries {
        bodies = bodies.saturating_add(entry.len());
    }
    Some((log.entries.len(), bodies))
}

// Serves a link whose source gives pieces of this size. `None` where the log can't be begun.
fn serve<R: Threads + Sync>(
    rt: &R,
    alloc: Global,
    book: &Book,
    link: &[u8],
    piece: usize,
    answers: Answers,
) -> Option<Outcome>
    requires { 0 < piece }
{
    let mut host = host(alloc, book, answers.log)?;
    let mut source = FailingSource::new(link, piece, answers.source);
    let mut sink = FailingSink::new(alloc, 64, answers.sink);
    let most = MaxBatch::whole_entry();
    let result = host.serve_link(
        rt,
        alloc,
        &mut source,
        &mut sink,
        &Shipped,
        most,
        &mut Unwatched,
    );
    let (entries, bodies) = log_size(alloc, host.log().file().synced())?;
    let mut replies = Vec::new(alloc);
    replies.extend_from_slice(sink.taken()).ok()?;
    Some(Outcome {
        result,
        replies,
        entries,
        bodies,
        tally: host.decider().tally(),
    })
}

// Whether a link is served whole: its replies, in so many entries of so many bodies, of which so many are no message.
fn is_served<R: Threads + Sync>(
    rt: &R,
    alloc: Global,
    book: &Book,
    piece: usize,
    entries: usize,
) -> bool
    requires { 0 < piece }
{
    match serve(rt, alloc, book, LINK, piece, ALL) {
        Some(outcome) => {
            outcome.result == Ok(())
                && outcome.replies.as_slice() == REPLIES
                && outcome.entries == entries
                && outcome.bodies == 3
                && outcome.tally.bodies == 3
                && outcome.tally.unreadable == 1
        }
        None => false,
    }
}

#[test]
fn a_link_is_served_however_it_is_cut(rt: HostRuntime) -> Result<(), Fail> {
    let book = first_book_with(rt.alloc(), &[])?;
    assert!(rt; is_served(&rt, rt.alloc(), &book, 4096, 1));
    // The request, then the body that is no message, then the repeat.
    assert!(rt; is_served(&rt, rt.alloc(), &book, 1, 3));
    // The request; the body that is no message and most of the repeat; the rest.
    assert!(rt; is_served(&rt, rt.alloc(), &book, 100, 3));
    Ok(())
}

// How many calls a log needs to be begun.
fn calls_to_begin(alloc: Global, book: &Book) -> u64 {
    for answers in 0..10 {
        if host(alloc, book, answers).is_some() {
            return answers;
        }
    }
    10
}

// Whether a link in pieces of 100 bytes leaves so many entries and these replies, where its log fails behind so many calls: each entry
// takes two, one that writes and one that syncs.
fn logged<R: Threads + Sync>(
    rt: &R,
    alloc: Global,
    book: &Book,
    answers: u64,
    entries: usize,
    replies: &[u8],
) -> bool {
    match serve(
        rt,
        alloc,
        book,
        LINK,
        100,
        Answers {
            log: answers,
            ..ALL
        },
    ) {
        Some(outcome) => {
            outcome.result == Err(HostFault::Log(LogFault::Failed))
                && outcome.replies.as_slice() == replies
                && outcome.entries == entries
        }
        None => false,
    }
}

#[test]
fn a_log_that_fails_at_any_call_lets_nothing_out(rt: HostRuntime) -> Result<(), Fail> {
    let book = first_book_with(rt.alloc(), &[])?;
    let begun = calls_to_begin(rt.alloc(), &book);
    assert!(rt; begun < 10);
    // What stands in the log is read once it is synced, and the entry that was not synced isn't.
    assert!(rt; logged(&rt, rt.alloc(), &book, begun, 0, b""));
    assert!(rt; logged(&rt, rt.alloc(), &book, begun + 1, 0, b""));
    assert!(rt; logged(&rt, rt.alloc(), &book, begun + 2, 1, FIRST_REPLY));
    assert!(rt; logged(&rt, rt.alloc(), &book, begun + 3, 1, FIRST_REPLY));
    assert!(rt; logged(&rt, rt.alloc(), &book, begun + 4, 2, FIRST_REPLY));
    assert!(rt; logged(&rt, rt.alloc(), &book, begun + 5, 2, FIRST_REPLY));
    Ok(())
}

// Whether a sink that takes 64 bytes a call, and so many calls, has a beginning of the replies, with the entries of all that it has.
fn is_cut_off<R: Threads + Sync>(
    rt: &R,
    alloc: Global,
    book: &Book,
    answers: u64,
    taken: usize,
    entries: usize,
) -> bool {
    match serve(
        rt,
        alloc,
        book,
        LINK,
        100,
        Answers {
            sink: answers,
            ..ALL
        },
    ) {
        Some(outcome) => {
            outcome.result == Err(HostFault::Link(LinkFault::Unwritable))
                && Some(outcome.replies.as_slice()) == REPLIES.get(..taken)
                && outcome.entries == entries
        }
        None => false,
    }
}

#[test]
fn a_sink_that_fails_at_any_call_has_what_is_in_the_log(rt: HostRuntime) -> Result<(), Fail> {
    let book = first_book_with(rt.alloc(), &[])?;
    assert!(rt; is_cut_off(&rt, rt.alloc(), &book, 0, 0, 1));
    assert!(rt; is_cut_off(&rt, rt.alloc(), &book, 1, 64, 1));
    assert!(rt; is_cut_off(&rt, rt.alloc(), &book, 2, 106, 3));
    assert!(rt; is_cut_off(&rt, rt.alloc(), &book, 3, 170, 3));
    Ok(())
}

// Whether a source that fails behind so many calls of 100 bytes leaves these replies and entries.
fn stops<R: Threads + Sync>(
    rt: &R,
    alloc: Global,
    book: &Book,
    answers: u64,
    replies: &[u8],
    entries: usize,
) -> bool {
    match serve(
        rt,
        alloc,
        book,
        LINK,
        100,
        Answers {
            source: answers,
            ..ALL
        },
    ) {
        Some(outcome) => {
            outcome.result == Err(HostFault::Link(LinkFault::Unreadable))
                && outcome.replies.as_slice() == replies
                && outcome.entries == entries
        }
        None => false,
    }
}

#[test]
fn a_source_that_fails_at_any_call_is_answered_up_to_there(rt: HostRuntime) -> Result<(), Fail> {
    let book = first_book_with(rt.alloc(), &[])?;
    assert!(rt; stops(&rt, rt.alloc(), &book, 0, b"", 0));
    assert!(rt; stops(&rt, rt.alloc(), &book, 1, FIRST_REPLY, 1));
    assert!(rt; stops(&rt, rt.alloc(), &book, 2, FIRST_REPLY, 2));
    assert!(rt; stops(&rt, rt.alloc(), &book, 3, REPLIES, 3));
    Ok(())
}

#[test]
fn a_link_that_stops_within_a_frame_is_answered_up_to_there(rt: HostRuntime) -> Result<(), Fail> {
    let book = first_book_with(rt.alloc(), &[])?;
    let Some(front) = LINK.get(..150) else {
        return Err(Fail::new("150 bytes"));
    };
    let outcome = serve(&rt, rt.alloc(), &book, front, 4096, ALL);
    assert!(rt;
        matches!(&outcome, Some(it) if it.result == Err(HostFault::Link(LinkFault::Ended)))
    );
    assert!(rt;
        matches!(&outcome, Some(it) if it.replies.as_slice() == FIRST_REPLY && it.bodies == 2)
    );
    Ok(())
}

#[test]
fn the_book_is_that_after_the_link(rt: HostRuntime) -> Result<(), Fail> {
    let book = first_book_with(rt.alloc(), &[])?;
    let Some(mut host) = host(rt.alloc(), &book, 1000) else {
        return Err(Fail::new("a host"));
    };
    let mut source = LINK;
    let mut sink = FailingSink::new(rt.alloc(), 4096, 1000);
    let most = MaxBatch::whole_entry();
    let result = host.serve_link(
        &rt,
        rt.alloc(),
        &mut source,
        &mut sink,
        &Shipped,
        most,
        &mut Unwatched,
    );
    assert!(rt; result == Ok(()));
    assert!(rt; has_row(host.decider().book(), "account A 9900 978"));
    Ok(())
}

// The bytes of all of these, one behind another.
fn joined(alloc: Global, parts: &[&[u8]]) -> Result<Vec<u8>, Fail> {
    let mut bytes = Vec::new(alloc);
    for part in parts {
        if bytes.extend_from_slice(part).is_err() {
            return Err(Fail::new("room"));
        }
    }
    Ok(bytes)
}

// Whether a link that comes at once is answered so, in so many entries of so many bodies.
fn is_answered<R: Threads + Sync>(
    rt: &R,
    alloc: Global,
    link: &[u8],
    replies: &[u8],
    entries: usize,
    bodies: u32,
) -> Result<bool, Fail> {
    let book = first_book_with(alloc, &[])?;
    match serve(rt, alloc, &book, link, 4096, ALL) {
        Some(outcome) => Ok(
            outcome.result == Ok(())
                && outcome.replies.as_slice() == replies
                && outcome.entries == entries
                && outcome.bodies == bodies
                && outcome.tally.bodies == u64::from(bodies),
        ),
        None => Ok(false),
    }
}

#[test]
fn an_echo_alone_makes_no_entry(rt: HostRuntime) -> Result<(), Fail> {
    assert!(rt; is_answered(&rt, rt.alloc(), ECHO, ECHO_REPLY, 0, 0)?);
    let twice = joined(rt.alloc(), &[ECHO, ECHO])?;
    let replies = joined(rt.alloc(), &[ECHO_REPLY, ECHO_REPLY])?;
    assert!(rt; is_answered(&rt, rt.alloc(), &twice, &replies, 0, 0)?);
    Ok(())
}

#[test]
fn an_echo_is_answered_at_its_place(rt: HostRuntime) -> Result<(), Fail> {
    let link = joined(
        rt.alloc(),
        &[ECHO, FIRST, NO_MESSAGE, ECHO, ECHO, SECOND, REPEAT, ECHO],
    )?;
    let replies = joined(
        rt.alloc(),
        &[
            ECHO_REPLY,
            FIRST_REPLY,
            ECHO_REPLY,
            ECHO_REPLY,
            SECOND_REPLY,
            FIRST_REPLY,
            ECHO_REPLY,
        ],
    )?;
    assert!(rt; is_answered(&rt, rt.alloc(), &link, &replies, 1, 4)?);
    Ok(())
}

// Function 803, which there is not: the body is logged as one that is no message, and gets no reply.
#[test]
fn another_function_is_no_network_management(rt: HostRuntime) -> Result<(), Fail> {
    let link = b"\x00\x211804\x00\x30\x01\x00\x00\x00\x00\x00000007260315080500803";
    assert!(rt; is_answered(&rt, rt.alloc(), link, b"", 1, 1)?);
    Ok(())
}

// An echo behind a request whose entry can't be synced is not answered either.
#[test]
fn an_echo_waits_for_the_entry_of_its_turn(rt: HostRuntime) -> Result<(), Fail> {
    let book = first_book_with(rt.alloc(), &[])?;
    let link = joined(rt.alloc(), &[ECHO, FIRST])?;
    let begun = calls_to_begin(rt.alloc(), &book);
    assert!(rt; begun < 10);
    for calls in [begun, begun + 1] {
        let outcome = serve(
            &rt,
            rt.alloc(),
            &book,
            &link,
            4096,
            Answers { log: calls, ..ALL },
        );
        assert!(rt;
            matches!(&outcome, Some(it) if it.result == Err(HostFault::Log(LogFault::Failed)) && it.replies.is_empty())
        );
    }
    Ok(())
}
