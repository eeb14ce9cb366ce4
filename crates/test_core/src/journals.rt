//! Journals as text: the lines of entries, and texts that are none.

use iso8583::{Day, PanPrefix};
use issuer_rows::RowKey;
use std::alloc::Global;
use stm_core_laws::Seat;
use stm_journal_text::{Entry, Event, ReplayFault, read_journal, write_journal, write_key};
use stm_memory::Version;
use test_fixtures::{account, identity, pan};

// A row, by its kind.
fn key(kind: &str) -> Option<RowKey> {
    match kind {
        "card" => Some(RowKey::Card(pan("A")?)),
        "day" => Some(RowKey::Velocity(pan("A")?, Day::new(b"260110")?)),
        "budget" => Some(RowKey::Budget(PanPrefix::new(b"411111")?)),
        "original" => Some(RowKey::Original(identity("000001")?)),
        "account" => Some(RowKey::Account(account("A")?)),
        _ => None,
    }
}

// Kinds of rows, and their text behind `> `.
const KEYS: &[(&str, &[u8])] = &[
    ("card", b"> card:4111110000000005"),
    ("day", b"> day:4111110000000005:260110"),
    ("budget", b"> budget:411111"),
    ("original", b"> orig:123456:000001:260110120000"),
    ("account", b"> acct:34313131313130303030303030303035"),
];

// Whether the kind's key is written so, behind what is there.
fn is_written(kind: &str, text: &[u8], out: &mut Vec<u8>) -> bool {
    out.clear();
    let is_put = out.extend_from_slice(b"> ").is_ok();
    match key(kind) {
        Some(key) => is_put & write_key(&key, out).is_ok() & (out.as_slice() == text),
        None => false,
    }
}

// An event; a row that it reads is given by its kind.
#[derive(Clone, Copy)]
enum EventLine {
    Claim,
    Read(Version, &'static str),
    Block(Version, u32),
    Finish(Version),
    BeginValidation(Version),
    ValidateOne,
    EndValidation,
    Commit,
}

const LATER: Version = Version {
    index: 7,
    incarnation: 2,
};

// Events at seat 63, and their lines.
const EVENTS: &[(EventLine, &str)] = &[
    (EventLine::Claim, "63 n\n"),
    (
        EventLine::Read(LATER, "card"),
        "63 r 7.2 card:4111110000000005\n",
    ),
    (
        EventLine::Block(LATER, 4_294_967_295),
        "63 b 7.2 4294967295\n",
    ),
    (
        EventLine::Finish(Version {
            index: 10,
            incarnation: 0,
        }),
        "63 f 10.0\n",
    ),
    (
        EventLine::BeginValidation(Version {
            index: 0,
            incarnation: 10,
        }),
        "63 c 0.10\n",
    ),
    (EventLine::ValidateOne, "63 o\n"),
    (EventLine::EndValidation, "63 e\n"),
    (EventLine::Commit, "63 k\n"),
];

fn event(told: &EventLine) -> Option<Event> {
    match told {
        EventLine::Claim => Some(Event::Claim),
        EventLine::Read(version, kind) => Some(Event::Read(*version, key(kind)?)),
        EventLine::Block(version, on) => Some(Event::Block(*version, *on)),
        EventLine::Finish(version) => Some(Event::Finish(*version)),
        EventLine::BeginValidation(version) => Some(Event::BeginValidation(*version)),
        EventLine::ValidateOne => Some(Event::ValidateOne),
        EventLine::EndValidation => Some(Event::EndValidation),
        EventLine::Commit => Some(Event::Commit),
    }
}

fn entry(number: u32, told: &EventLine) -> Option<Entry> {
    Some(Entry {
        seat: Seat::new(number)?,
        event: event(told)?,
    })
}

// Whether the entries are written so.
fn are_written(alloc: Global, entries: &[Entry], text: &str) -> bool {
    match write_journal(alloc, entries) {
        Ok(written) => written.as_slice() == text.as_bytes(),
        Err(_) => false,
    }
}

// Whether the text is read as these entries.
fn are_read(alloc: Global, entries: &[Entry], text: &str) -> bool {
    match read_journal(alloc, text.as_bytes()) {
        Ok(read) => read.as_slice() == entries,
        Err(_) => false,
    }
}

fn are_kept(alloc: Global, entries: &[Entry], text: &str) -> bool {
    are_written(alloc, entries, text) & are_read(alloc, entries, text)
}

fn is_kept_alone(alloc: Global, told: &EventLine, text: &str) -> bool {
    match entry(63, told) {
        Some(entry) => are_kept(alloc, &[entry], text),
        None => false,
    }
}

// The line of the first event that isn't written and read.
fn first_unkept(alloc: Global) -> Option<&'static str> {
    for (told, line) in EVENTS {
        if !is_kept_alone(alloc, told, line) {
            return Some(*line);
        }
    }
    None
}

const FIRST: Version = Version {
    index: 0,
    incarnation: 0,
};

// The journal of one message that one worker executes.
fn executed() -> Option<[Entry; 7]> {
    Some([
        entry(0, &EventLine::Claim)?,
        entry(0, &EventLine::Read(FIRST, "original"))?,
        entry(0, &EventLine::Read(FIRST, "card"))?,
        entry(0, &EventLine::Read(FIRST, "account"))?,
        entry(0, &EventLine::Read(FIRST, "day"))?,
        entry(0, &EventLine::Read(FIRST, "budget"))?,
        entry(0, &EventLine::Finish(FIRST))?,
    ])
}

const EXECUTED: &str = "0 n\n\
0 r 0.0 orig:123456:000001:260110120000\n\
0 r 0.0 card:4111110000000005\n\
0 r 0.0 acct:34313131313130303030303030303035\n\
0 r 0.0 day:4111110000000005:260110\n\
0 r 0.0 budget:411111\n\
0 f 0.0\n";

// Whether an execution and no entries are written and read.
fn is_executed(alloc: Global) -> bool {
    match executed() {
        Some(entries) => are_kept(alloc, &entries, EXECUTED) & are_kept(alloc, &[], ""),
        None => false,
    }
}

// Texts, and the first line of each that is no entry.
const REFUSED: &[(&str, usize)] = &[
    // Ends of lines.
    ("\n", 1),
    ("0 n", 1),
    ("0 n\n0 o", 2),
    ("0 n\n\n0 k\n", 2),
    ("0 n\r\n", 1),
    // Seats and marks.
    ("64 n\n", 1),
    ("00 n\n", 1),
    ("+1 n\n", 1),
    (" n\n", 1),
    ("0 n \n", 1),
    ("0 n\n1 k\n2  o\n", 3),
    ("0\n", 1),
    // Letters.
    ("0 n\n0 N\n", 2),
    ("0 x\n", 1),
    ("0 n 0.0\n", 1),
    ("0 f\n", 1),
    // Versions and indices.
    ("0 f 0\n", 1),
    ("0 f 0.00\n", 1),
    ("0 f 4294967296.0\n", 1),
    ("0 c 0.0.0\n", 1),
    ("0 b 1.0\n", 1),
    ("0 b 1.0 00\n", 1),
    // Keys of wrong parts.
    ("0 r 0.0\n", 1),
    ("0 r 0.0 4111110000000005\n", 1),
    ("0 r 0.0 Card:4111110000000005\n", 1),
    ("0 r 0.0 card:41111100000\n", 1),
    ("0 r 0.0 card:4111110000000005:\n", 1),
    ("0 r 0.0 day:4111110000000005\n", 1),
    ("0 r 0.0 day:4111110000000005:261310\n", 1),
    ("0 r 0.0 budget:41111\n", 1),
    ("0 r 0.0 orig:123456:000001\n", 1),
    ("0 r 0.0 orig:123456:000001:260110240000\n", 1),
    ("0 r 0.0 orig::000001:260110120000\n", 1),
    // Names of accounts: none, half a byte, a capital, no printable character, 29 bytes.
    ("0 r 0.0 acct:\n", 1),
    ("0 r 0.0 acct:3\n", 1),
    ("0 r 0.0 acct:4A\n", 1),
    ("0 r 0.0 acct:1f\n", 1),
    (
        "0 r 0.0 acct:3030303030303030303030303030303030303030303030303030303030\n",
        1,
    ),
];

fn fault_of(alloc: Global, text: &str) -> Option<ReplayFault> {
    read_journal(alloc, text.as_bytes()).err()
}

// The first text that is read, or refused for another line.
fn first_unrefused(alloc: Global) -> Option<&'static str> {
    for (text, line) in REFUSED {
        if fault_of(alloc, text) != Some(ReplayFault::Line(*line)) {
            return Some(*text);
        }
    }
    None
}

#[test]
fn journals_are_written_and_read(rt: HostRuntime) {
    let unkept = first_unkept(rt.alloc());
    let unrefused = first_unrefused(rt.alloc());
    assert!(rt;
        unkept.is_none() & unrefused.is_none(),
        "{unkept:?} {unrefused:?}"
    );
    assert!(rt; is_executed(rt.alloc()));
}

#[test]
fn each_kind_of_key_has_its_text(rt: HostRuntime) {
    let mut out = Vec::new(rt.alloc());
    for (kind, text) in KEYS {
        assert!(rt; is_written(kind, text, &mut out), "{kind}");
    }
}

// Faults with their numbers, and what they print.
const FAULTS: &[(ReplayFault, u8, &str)] = &[
    (ReplayFault::Line(3), 1, "line 3 is no entry of a journal"),
    (
        ReplayFault::Unlogged(4),
        2,
        "the decision of entry 4 asks for a row that isn't logged",
    ),
    (ReplayFault::OutOfMemory, 3, "memory ran out"),
];

// Whether the fault has this number, and prints so.
fn prints(alloc: Global, fault: ReplayFault, number: u8, text: &str) -> bool {
    match fault.to_string(alloc) {
        Ok(printed) => (printed.as_str() == text) & (fault.number() == number),
        Err(_) => false,
    }
}

#[test]
fn faults_print_and_seats_are_below_64(rt: HostRuntime) {
    for (fault, number, text) in FAULTS {
        assert!(rt; prints(rt.alloc(), *fault, *number, text), "{text}");
    }
    assert!(rt; Seat::new(63).is_some_and(|seat| seat.number() == 63));
    assert!(rt; Seat::new(64).is_none());
}
