//! One decision: what it reads and writes, and how often its source is asked.
ghost use Rattle.std.specs.Prelude.{None};

use issuer_rows::{ReplyBody, RowKey, RowVal};
use issuer_rules::Shipped;
use issuer_view::{Execution, Recorder, RowSource, Stop, execute};
use std::alloc::Global;
use test_fixtures::{body, row};

// Rows that are given as lines, and how often it was asked for any.
#[derive(Drop)]
struct ListedRows<'a> {
    lines: &'a [&'a str],
    asked: u32,
}

impl RowSource for ListedRows<'_> {
    ghost book = { λ _. None };

    ghost answers = { λ _ _ _ _. Unit {0} };

    fn read(&mut self, key: &RowKey) -> Result<Option<RowVal>, Stop> {
        self.asked = self.asked.saturating_add(1);
        if let Some(val) = value_in(self.lines, key) {
            if val.suits(key) {
                return Ok(Some(val));
            }
        }
        Ok(None)
    }
}

// The row's value, of the first of these lines that has one.
fn value_in(lines: &[&str], key: &RowKey) -> Option<RowVal> {
    for line in lines {
        if let Some((there, val)) = row(line) {
            if there == *key {
                return Some(val);
            }
        }
    }
    None
}

const CARD: &str = "card A 2812 active 0 3 20000 A -";

const ACCOUNT: &str = "account A 10000 978";

// A body decided on these rows.
fn decided_on(alloc: Global, line: &str, lines: &[&str]) -> Option<Execution> {
    let frame = body(line)?;
    execute(alloc, &frame, ListedRows { lines, asked: 0 }, &Shipped).ok()
}

// The place of a row's kind among the five.
fn kind_of(key: &RowKey) -> u8 {
    match key {
        RowKey::Card(_) => 0,
        RowKey::Velocity(_, _) => 1,
        RowKey::Budget(_) => 2,
        RowKey::Original(_) => 3,
        RowKey::Account(_) => 4,
    }
}

// The kinds of the rows that were read, in their order, as digits.
fn kinds_read(execution: &Execution) -> u32 {
    let reads = execution.reads();
    let mut kinds = 0u32;
    for index in 0..reads.len() {
        let digit = u32::from(kind_of(&reads.at(index).0));
        kinds = kinds.saturating_mul(10).saturating_add(digit);
    }
    kinds
}

// Rows that a request of 100 on card A is decided on, the kinds that it reads, and how many rows it writes.
const READS: &[(&[&str], u32, usize)] = &[
    (&[], 30, 1),
    (&[CARD], 304, 1),
    (&[CARD, ACCOUNT], 30412, 4),
    (&[CARD, ACCOUNT, "day A 260110 3 0"], 3041, 1),
];

// The kinds that the request reads on these rows, and how many rows it writes.
fn found_on(alloc: Global, lines: &[&str]) -> Option<(u32, usize)> {
    let execution = decided_on(alloc, "1100 000001 A 100", lines)?;
    Some((kinds_read(&execution), execution.writes().len()))
}

// A row is read where the first test that needs it is reached: identity, card, account, day, budget.
#[test]
fn reads_the_rows_that_it_needs(rt: HostRuntime) {
    for (lines, kinds, writes) in READS {
        let found = found_on(rt.alloc(), lines);
        assert!(rt; found == Some((*kinds, *writes)), "{kinds}");
    }
}

// Whether the execution is of the bad body, read and wrote nothing, and answers a fault.
fn is_fault_alone(execution: &Execution) -> bool {
    matches!(body("bad"), Some(bad) if execution.frame().is_same(&bad))
        & matches!(execution.reply(), ReplyBody::Fault(_))
        & execution.reads().is_empty()
        & execution.writes().is_empty()
}

#[test]
fn a_bad_body_reads_nothing(rt: HostRuntime) {
    let execution = decided_on(rt.alloc(), "bad", &[]).expect(&rt, "an execution");
    assert!(rt; is_fault_alone(&execution));
}

// Whether the line's row is answered so.
fn answers(recorder: &mut Recorder<ListedRows>, line: &str) -> bool {
    match row(line) {
        Some((key, val)) => matches!(recorder.read(&key), Ok(Some(found)) if found.is_same(&val)),
        None => false,
    }
}

// Whether there is no row where the line's row would be.
fn has_none(recorder: &mut Recorder<ListedRows>, line: &str) -> bool {
    match row(line) {
        Some((key, _)) => matches!(recorder.read(&key), Ok(None)),
        None => false,
    }
}

// Whether the line's row is written.
fn puts(recorder: &mut Recorder<ListedRows>, line: &str) -> bool {
    match row(line) {
        Some((key, val)) => val.suits(&key) && recorder.write(key, val).is_ok(),
        None => false,
    }
}

// Whether the source was asked for two rows, these are logged, and one was written.
fn has_counts(recorder: Recorder<ListedRows>) -> bool {
    let (source, reads, writes) = recorder.into_parts();
    (source.asked, reads.len(), writes.len()) == (2, 2, 1)
}

// A row that was read, and one that isn't there, are asked for once; a row that is written is answered as it is written.
#[test]
fn asks_once_and_answers_what_it_put(rt: HostRuntime) {
    let source = ListedRows {
        lines: &[ACCOUNT],
        asked: 0,
    };
    let mut recorder = Recorder::new(rt.alloc(), source);
    let first = answers(&mut recorder, ACCOUNT) & has_none(&mut recorder, CARD);
    let again = answers(&mut recorder, ACCOUNT) & has_none(&mut recorder, CARD);
    let after = "account A 4000 978";
    let is_put = puts(&mut recorder, after) & answers(&mut recorder, after);
    assert!(rt; first & again & is_put & has_counts(recorder));
}

// What stops a decision, and what it prints.
const STOPS: &[(Stop, &str)] = &[
    (Stop::Blocked(7), "blocked by message 7"),
    (Stop::Lost, "no longer the one that decides"),
    (Stop::OutOfMemory, "out of memory"),
];

fn prints(alloc: Global, stop: Stop, text: &str) -> bool {
    match stop.to_string(alloc) {
        Ok(printed) => printed.as_str() == text,
        Err(_) => false,
    }
}

#[test]
fn stops_print(rt: HostRuntime) {
    for (stop, text) in STOPS {
        assert!(rt; prints(rt.alloc(), *stop, text), "{text}");
    }
}
