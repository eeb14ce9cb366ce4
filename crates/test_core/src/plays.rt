//! Journals that are kept, and played again: to the same core, and with invalid calls among those of the journal too.
ghost use Rattle.std.specs.Prelude.{None};

use crate::invalid_calls::{InvalidCall, InvalidCalls};
use crate::journal_answers::{frames_of, has_committed, has_script_marks, is_told};
use crate::journal_scripts::{JournalScript, comes_late, waits};
use issuer_rows::{Book, Frame, RowKey, RowVal};
use issuer_rules::Shipped;
use issuer_view::{RowSource, Stop, execute};
use std::alloc::Global;
use std::process::Abort;
use std::test::Fail;
use stm_core::Core;
use stm_journal::{CoreAnswer, Entry, Event, Traced, read_journal, replay, write_journal};
use stm_memory::Version;
use test_fixtures::first_book_with;

// The rows that a version logged, to decide its message again.
#[derive(Drop)]
struct Logged<'a> {
    core: &'a Core,
    version: Version,
}

impl RowSource for Logged<'_> {
    ghost book = { λ _. None };

    ghost answers = { λ _ _ _ _. Unit {0} };

    fn read(&mut self, key: &RowKey) -> Result<Option<RowVal>, Stop> {
        self.core.logged(self.version, key).ok_or(Stop::Lost)
    }
}

// Decides the version's message on what it logged, and hands it in.
fn finish(
    alloc: Global,
    traced: &mut Traced,
    frames: &[Frame; 3],
    entry: Entry,
    version: Version,
) -> Option<CoreAnswer> {
    let frame = frames.get(version.index as usize)?;
    let rows = Logged {
        core: traced.core(),
        version,
    };
    match execute(alloc, frame, rows, &Shipped) {
        Ok(execution) => Some(traced.finish(alloc, entry.seat, version, execution)),
        Err(_) => None,
    }
}

// Does what the entry says, on a core that keeps its journal.
fn ask(
    alloc: Global,
    traced: &mut Traced,
    frames: &[Frame; 3],
    entry: Entry,
) -> Option<CoreAnswer> {
    match entry.event {
        Event::Finish(version) => finish(alloc, traced, frames, entry, version),
        event => Some(traced.step(entry.seat, event)),
    }
}

// Makes the calls of the journal, with the invalid one behind each of them. Returns which call of the journal is answered otherwise, or
// has an invalid one behind it that isn't refused.
fn unmet(
    stage: &InvalidCalls,
    traced: &mut Traced,
    entries: &[Entry],
    told: &[&str],
    invalid: InvalidCall,
    calls: &mut usize,
) -> Option<usize> {
    let mut met = 0usize;
    for (place, entry) in entries.iter().enumerate() {
        let is_met = match ask(stage.alloc, traced, stage.frames, *entry) {
            Some(answer) => is_told(told, &mut met, &answer),
            None => false,
        };
        if !(is_met & stage.is_refused(traced, invalid, calls)) {
            return Some(place);
        }
    }
    if met == told.len() {
        None
    } else {
        Some(entries.len())
    }
}

// Whether the core keeps these entries, and its stop mark.
fn keeps(traced: &mut Traced, entries: &[Entry]) -> bool {
    let was_stopped = traced.stopped();
    traced.stop();
    !was_stopped & traced.stopped() & (traced.entries() == entries)
}

// Whether the entries are written so.
fn are_written(alloc: Global, entries: &[Entry], text: &[u8]) -> bool {
    match write_journal(alloc, entries) {
        Ok(written) => written.as_slice() == text,
        Err(_) => false,
    }
}

// Whether the entries, played again, come to what the script states.
fn are_replayed(stage: &InvalidCalls, entries: &[Entry], script: &JournalScript) -> bool {
    let frames = stage.frames;
    match replay(stage.alloc, stage.own, frames, entries) {
        Ok(core) => {
            has_script_marks(&core, stage.own, frames, script)
                & has_committed(stage.alloc, core, script)
        }
        Err(_) => false,
    }
}

// The core after the calls, which are answered as the script states, and after so many invalid ones. It has kept the journal where there
// are none.
fn played(
    rt: &impl Abort,
    stage: &InvalidCalls,
    entries: &[Entry],
    script: &JournalScript,
    invalid: InvalidCall,
    often: usize,
) -> Core {
    let frames = stage.frames;
    let mut traced = Traced::new(stage.alloc, stage.own, frames).expect(rt, "room");
    let is_fresh = traced.entries().is_empty();
    let mut calls = 0usize;
    let unmet = unmet(
        stage,
        &mut traced,
        entries,
        script.told,
        invalid,
        &mut calls,
    );
    let is_kept = calls != 0 || keeps(&mut traced, entries);
    assert!(rt;
        is_fresh & is_kept & (calls == often) & unmet.is_none(),
        "{calls} {unmet:?}"
    );
    let (core, _) = traced.into_parts();
    core
}

// With the invalid call, made so often, the core comes to what the script states.
fn assert_played(
    rt: &impl Abort,
    stage: &InvalidCalls,
    entries: &[Entry],
    script: &JournalScript,
    invalid: InvalidCall,
    often: usize,
) {
    let core = played(rt, stage, entries, script, invalid, often);
    assert!(rt;
        has_script_marks(&core, stage.own, stage.frames, script),
        "{often}"
    );
    assert!(rt; has_committed(stage.alloc, core, script), "{often}");
}

// The journal is read, kept by a core, written, and played again.
fn assert_kept(rt: &impl Abort, alloc: Global, book: &Book, script: &JournalScript) {
    let frames = frames_of(&script.bodies).expect(rt, "three requests");
    let stage = InvalidCalls {
        alloc,
        own: book,
        other: book,
        frames: &frames,
    };
    let entries = read_journal(alloc, script.text).expect(rt, "a journal");
    assert_played(rt, &stage, &entries, script, InvalidCall::Nothing, 0);
    let is_written = are_written(alloc, &entries, script.text);
    let is_replayed = are_replayed(&stage, &entries, script);
    assert!(rt; is_written & is_replayed, "{}", script.account);
}

#[test]
fn journals_are_kept_and_played_again(rt: HostRuntime) -> Result<(), Fail> {
    let book = first_book_with(rt.alloc(), &[])?;
    assert_kept(&rt, rt.alloc(), &book, waits());
    assert_kept(&rt, rt.alloc(), &book, comes_late());
    Ok(())
}

// Invalid calls, and how often there is one behind the 65 calls of the first journal.
const INVALID: &[(InvalidCall, usize)] = &[
    (InvalidCall::Read, 65),
    (InvalidCall::Finish, 38),
    (InvalidCall::BeginValidation, 38),
    (InvalidCall::ValidateOne, 65),
    (InvalidCall::EndValidation, 65),
    (InvalidCall::Block, 12),
];

fn assert_unmoved(rt: &impl Abort, alloc: Global, own: &Book, other: &Book) {
    let frames = frames_of(&waits().bodies).expect(rt, "three requests");
    let stage = InvalidCalls {
        alloc,
        own,
        other,
        frames: &frames,
    };
    let entries = read_journal(alloc, waits().text).expect(rt, "a journal");
    for (invalid, often) in INVALID {
        assert_played(rt, &stage, &entries, waits(), *invalid, *often);
    }
}

#[test]
fn invalid_calls_are_refused_and_change_nothing(rt: HostRuntime) -> Result<(), Fail> {
    let own = first_book_with(rt.alloc(), &[])?;
    let other = first_book_with(rt.alloc(), &["account A 700 978"])?;
    assert_unmoved(&rt, rt.alloc(), &own, &other);
    Ok(())
}
