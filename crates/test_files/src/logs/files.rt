//! Logs in files of the host.

use crate::logs::vectors::{BOOK, LOG};
use crate::logs::writing::{begun, bodies_of};
use log_file::{Begun, HostLog, LogFault, LogInput, LogReader, LogStep, LogWriter, OpenFault};
use std::alloc::Global;
use std::fs::File;
use std::test::Fail;
use std::{fs, rt};

// The two entries, in a new log.
fn write<R: rt::Files<File = File>>(host: &R, alloc: Global, name: &str) -> Result<u64, LogFault> {
    let Ok(file) = HostLog::open(host, name) else {
        return Err(LogFault::InUse);
    };
    let mut writer = begun(alloc, file, BOOK)?;
    writer.append(&bodies_of(alloc, &[b"one", b"two!"])?)?;
    let last = bodies_of(alloc, &[b"three"])?;
    let synced = writer.append(&last)?;
    Ok(synced.number())
}

// Reads the log, cuts its tail, and returns how many entries it has.
fn resume<R: rt::Files<File = File>>(host: &R, alloc: Global, name: &str) -> Result<u64, LogFault> {
    let Ok(file) = HostLog::open(host, name) else {
        return Err(LogFault::InUse);
    };
    let Begun::Old(file) = LogWriter::begin(alloc, file, BOOK)? else {
        return Err(LogFault::NoLog);
    };
    let mut found = None;
    let mut reader = LogReader::open(alloc, LogInput::new(&file), BOOK)?;
    for _ in 0..10 {
        if let LogStep::End(end) = reader.next()? {
            found = Some(end);
            break;
        }
    }
    let Some(end) = found else {
        return Err(LogFault::NoLog);
    };
    LogWriter::resume(alloc, file, end)?;
    Ok(end.entries())
}

#[test]
fn a_file_of_the_host_is_written_and_gone_on_with(rt: HostRuntime) -> Result<(), Fail> {
    let alloc = rt.alloc();
    let _ = fs::remove_dir_all(&rt, "log_written");
    fs::create_dir(&rt, "log_written")?;
    assert!(rt; write(&rt, alloc, "log_written/log") == Ok(1));
    assert!(rt; fs::read(&rt, "log_written/log")?.as_slice() == LOG);
    // A second log isn't begun in it.
    assert!(rt; write(&rt, alloc, "log_written/log") == Err(LogFault::NoLog));
    // A torn tail is cut.
    fs::write(&rt, "log_written/log", LOG.get(..140).unwrap_or(LOG))?;
    assert!(rt; resume(&rt, alloc, "log_written/log") == Ok(1));
    assert!(rt; fs::read(&rt, "log_written/log")?.as_slice() == LOG.get(..93).unwrap_or(LOG));
    // What is no log stays as it is.
    fs::write(&rt, "log_written/other", b"another file")?;
    assert!(rt; resume(&rt, alloc, "log_written/other") == Err(LogFault::NoLog));
    assert!(rt; fs::read(&rt, "log_written/other")?.as_slice() == b"another file".as_slice());
    fs::remove_dir_all(&rt, "log_written")?;
    Ok(())
}

#[test]
fn one_host_alone_has_a_log(rt: HostRuntime) -> Result<(), Fail> {
    let _ = fs::remove_dir_all(&rt, "log_locked");
    fs::create_dir(&rt, "log_locked")?;
    let first = HostLog::open(&rt, "log_locked/log");
    assert!(rt; first.is_ok());
    assert!(rt; matches!(HostLog::open(&rt, "log_locked/log"), Err(OpenFault::InUse)));
    drop(first);
    assert!(rt; HostLog::open(&rt, "log_locked/log").is_ok());
    assert!(rt; matches!(HostLog::open(&rt, "log_locked"), Err(OpenFault::Refused)));
    assert!(rt;
        matches!(
            HostLog::open(&rt, "log_absent/log"),
            Err(OpenFault::Refused)
        )
    );
    fs::remove_dir_all(&rt, "log_locked")?;
    Ok(())
}
