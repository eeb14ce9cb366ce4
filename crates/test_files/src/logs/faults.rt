//! Faults and torn tails of logs.

use crate::logs::vectors::{BOOK, LOG, NO_BODIES, NO_PAYLOAD};
use log_file::{LogFault, read_log};
use std::alloc::{AllocError, Global};
use std::test::Fail;

// The log with one byte changed at this place, and these bytes behind its first so many.
fn changed(alloc: Global, kept: usize, place: usize, more: &[u8]) -> Result<Vec<u8>, AllocError> {
    let mut bytes = Vec::from_slice(alloc, LOG.get(..kept).unwrap_or(LOG))?;
    if let Some(byte) = bytes.get_mut(place) {
        *byte ^= 1;
    }
    bytes.extend_from_slice(more)?;
    Ok(bytes)
}

// How the bytes are read: how many entries, and how many bytes of tail; or the fault.
fn read(alloc: Global, bytes: &[u8]) -> Result<(u64, u64), LogFault> {
    let log = read_log(alloc, bytes, BOOK)?;
    Ok((log.end.entries(), log.end.tail()))
}

// No place of the log.
const NONE: usize = 1_000;

#[test]
fn each_fault_is_named(rt: HostRuntime) -> Result<(), Fail> {
    let alloc = rt.alloc();
    assert!(rt; read(alloc, b"") == Err(LogFault::NoLog));
    assert!(rt; read(alloc, &changed(alloc, 37, NONE, b"")?) == Err(LogFault::NoLog));
    assert!(rt; read(alloc, &changed(alloc, 144, 3, b"")?) == Err(LogFault::NoLog));
    assert!(rt; read(alloc, &changed(alloc, 144, 5, b"")?) == Err(LogFault::Version));
    assert!(rt; read(alloc, &changed(alloc, 144, 6, b"")?) == Err(LogFault::OtherBook));
    assert!(rt; read(alloc, &changed(alloc, 144, 37, b"")?) == Err(LogFault::OtherBook));
    // The length, its complement, the payload and the digest of the first entry.
    for place in [38usize, 41, 42, 45, 46, 60, 61, 92] {
        assert!(rt;
            read(alloc, &changed(alloc, 144, place, b"")?) == Err(LogFault::Broken(0)),
            "{place}"
        );
    }
    // The same of the last entry, where more follows.
    for place in [93usize, 100, 101, 112, 143] {
        assert!(rt;
            read(alloc, &changed(alloc, 144, place, b"\x00")?) == Err(LogFault::Broken(1)),
            "{place}"
        );
    }
    // A right digest over no bodies, and a payload that isn't one.
    assert!(rt; read(alloc, &changed(alloc, 38, NONE, NO_BODIES)?) == Err(LogFault::Broken(0)));
    assert!(rt; read(alloc, &changed(alloc, 38, NONE, NO_PAYLOAD)?) == Err(LogFault::Broken(0)));
    // Zeros, and then a byte that is none.
    assert!(rt;
        read(
            alloc,
            &changed(alloc, 144, NONE, b"\x00\x00\x00\x00\x00\x00\x00\x00\x01")?
        ) == Err(LogFault::Broken(2))
    );
    Ok(())
}

#[test]
fn each_torn_tail_is_told(rt: HostRuntime) -> Result<(), Fail> {
    let alloc = rt.alloc();
    for kept in 38..144usize {
        let (entries, end) = if kept < 93 { (0u64, 38usize) } else { (1, 93) };
        let tail = kept.saturating_sub(end) as u64;
        assert!(rt;
            read(alloc, &changed(alloc, kept, NONE, b"")?) == Ok((entries, tail)),
            "{kept}"
        );
    }
    // The payload and the digest of the last entry.
    for place in [101usize, 111, 112, 143] {
        assert!(rt;
            read(alloc, &changed(alloc, 144, place, b"")?) == Ok((1, 51)),
            "{place}"
        );
    }
    for zeros in [0usize, 1, 7, 8, 9, 70_000] {
        let more = vec![in alloc; 0u8; zeros]?;
        assert!(rt;
            read(alloc, &changed(alloc, 144, NONE, &more)?) == Ok((2, zeros as u64)),
            "{zeros}"
        );
    }
    Ok(())
}

#[test]
fn faults_are_numbered(rt: HostRuntime) -> Result<(), Fail> {
    let faults = [
        (LogFault::NoLog, "log 1"),
        (LogFault::Version, "log 2"),
        (LogFault::OtherBook, "log 3"),
        (LogFault::InUse, "log 4"),
        (LogFault::Broken(9), "log 5"),
        (LogFault::Failed, "log 6"),
        (LogFault::OutOfMemory, "log 7"),
    ];
    for (fault, text) in faults {
        let told = format!(in rt.alloc(); "{fault}")?;
        assert!(rt; told.as_str() == text);
    }
    Ok(())
}
