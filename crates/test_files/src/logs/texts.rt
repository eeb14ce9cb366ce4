//! A log byte for byte.

use crate::logs::vectors::{BOOK, LOG};
use crate::logs::writing::{begun, bodies_of, file_of};
use log_file::{Begun, Bodies, GrowingFile, LogFault, LogInput, LogWriter, MemoryLog, read_log};
use std::alloc::Global;
use std::test::Fail;

// Whether these are the bodies of these texts, and no others.
fn are(bodies: &Bodies, texts: &[&[u8]]) -> bool {
    let mut count = 0usize;
    for body in bodies.iter() {
        if texts.get(count) != Some(&body) {
            return false;
        }
        count = count.saturating_add(1);
    }
    count == texts.len()
}

// Appends an entry, and returns whether it is synced with its number.
fn is_appended<G: GrowingFile + Drop>(
    alloc: Global,
    writer: &mut LogWriter<G>,
    texts: &[&[u8]],
    number: u64,
) -> Result<bool, LogFault> {
    let bodies = bodies_of(alloc, texts)?;
    let synced = writer.append(&bodies)?;
    Ok(synced.number() == number && are(synced.bodies(), texts))
}

#[test]
fn a_log_is_written_byte_for_byte(rt: HostRuntime) -> Result<(), Fail> {
    let alloc = rt.alloc();
    for piece in [1u8, 7, 255] {
        let file = file_of(alloc, b"", piece, 1_000)?;
        let begun = begun(alloc, file, BOOK);
        assert!(rt; begun.is_ok());
        let Ok(mut writer) = begun else {
            return Ok(());
        };
        assert!(rt; is_appended(alloc, &mut writer, &[b"one", b"two!"], 0) == Ok(true));
        assert!(rt; is_appended(alloc, &mut writer, &[b"three"], 1) == Ok(true));
        assert!(rt; writer.file().bytes() == LOG);
        assert!(rt; writer.file().synced() == LOG);
        assert!(rt; !writer.has_failed());
    }
    Ok(())
}

#[test]
fn a_log_is_read_as_its_entries(rt: HostRuntime) {
    let read = read_log(rt.alloc(), LOG, BOOK);
    assert!(rt;
        matches!(&read, Ok(log) if log.end.at() == 144 && log.end.tail() == 0 && log.end.entries() == 2)
    );
    let Ok(log) = read else {
        return;
    };
    assert!(rt;
        matches!(log.entries.as_slice(), [first, second] if are(first, &[b"one", b"two!"]) && are(second, &[b"three"]))
    );
}

// The file, once its log was read to the end, and is written on.
fn resumed(alloc: Global, file: MemoryLog) -> Result<LogWriter<MemoryLog>, LogFault> {
    let file = match LogWriter::begin(alloc, file, BOOK)? {
        Begun::New(writer) => return Ok(writer),
        Begun::Old(file) => file,
    };
    let log = read_log(alloc, LogInput::new(&file), BOOK)?;
    LogWriter::resume(alloc, file, log.end)
}

#[test]
fn a_log_is_gone_on_with_behind_a_torn_tail(rt: HostRuntime) -> Result<(), Fail> {
    let alloc = rt.alloc();
    // A header that was torn, the header, the first entry, and that with a tail.
    for (kept, number) in [
        (0usize, 0u64),
        (37, 0),
        (38, 0),
        (60, 0),
        (93, 1),
        (100, 1),
        (143, 1),
    ] {
        let file = file_of(alloc, LOG.get(..kept).unwrap_or(LOG), 255, 1_000)?;
        let resumed = resumed(alloc, file);
        assert!(rt; resumed.is_ok());
        let Ok(mut writer) = resumed else {
            return Ok(());
        };
        if number == 0 {
            assert!(rt; is_appended(alloc, &mut writer, &[b"one", b"two!"], 0) == Ok(true));
        }
        assert!(rt; is_appended(alloc, &mut writer, &[b"three"], 1) == Ok(true));
        assert!(rt; writer.file().synced() == LOG, "{kept}");
    }
    Ok(())
}
