//! Audits against a journal.

use crate::audits::worked::{Worked, right};
use app_audit::{Audit, audit_journal};
use engine_locked::run_traced;
use engine_workers::{NoHook, Workers};
use issuer_rules::Shipped;
use std::alloc::Global;
use std::sync::Wait;
use std::test::Fail;
use std::thread::Threads;
use stm_journal::{Entry, ReplayFault, read_journal};

// What the audit of the worked batch against these entries finds.
fn found(alloc: Global, worked: &Worked, entries: &[Entry]) -> &'static str {
    if worked.frames.len() > 64 {
        return "too many frames";
    }
    let Worked {
        book,
        frames,
        replies,
        after,
    } = worked;
    match audit_journal(alloc, book, frames, entries, replies, after) {
        Ok(Audit::Same) => "same",
        Ok(Audit::CountDiffers) => "count differs",
        Err(ReplayFault::Unlogged(2)) => "entry 2 is not logged",
        _ => "another",
    }
}

// The journal of a run of the worked batch on two threads.
fn journal<R: Threads + Wait + Sync>(rt: &R, alloc: Global, worked: &Worked) -> Option<Vec<Entry>> {
    if worked.frames.len() > 64 {
        return None;
    }
    let workers = Workers::new(2)?;
    let run = run_traced(
        rt,
        alloc,
        &worked.book,
        &worked.frames,
        workers,
        &Shipped,
        &NoHook,
    );
    match run {
        Ok((_, entries)) => Some(entries),
        Err(_) => None,
    }
}

// What it finds against the journal of a run.
fn found_of_run<R: Threads + Wait + Sync>(rt: &R, alloc: Global, worked: &Worked) -> &'static str {
    match journal(rt, alloc, worked) {
        Some(entries) => found(alloc, worked, &entries),
        None => "no journal",
    }
}

// What it finds against the journal of this text.
fn found_of_text(alloc: Global, worked: &Worked, text: &[u8]) -> &'static str {
    match read_journal(alloc, text) {
        Ok(entries) => found(alloc, worked, &entries),
        Err(_) => "no journal",
    }
}

// The first of these journals that is not found so.
fn first_wrong<R: Threads + Wait + Sync>(
    rt: &R,
    alloc: Global,
    worked: &Worked,
) -> Option<&'static str> {
    if found_of_run(rt, alloc, worked) != "same" {
        return Some("of a run");
    }
    if found(alloc, worked, &[]) != "count differs" {
        return Some("without an entry");
    }
    if found_of_text(alloc, worked, b"0 n\n0 f 0.0\n") != "entry 2 is not logged" {
        return Some("without reads");
    }
    None
}

fn wrong<R: Threads + Wait + Sync>(rt: &R, alloc: Global) -> Result<Option<&'static str>, Fail> {
    let worked = right(alloc)?;
    Ok(first_wrong(rt, alloc, &worked))
}

// The journal of a run plays to its replies and book; one that commits too little is a count that differs; and one without reads
// is not logged.
#[test]
fn journals_are_played(rt: HostRuntime) -> Result<(), Fail> {
    let wrong = wrong(&rt, rt.alloc())?;
    assert!(rt; wrong.is_none(), "{wrong:?}");
    Ok(())
}
