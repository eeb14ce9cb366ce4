//! A file that fails at each of its calls in turn.

use crate::logs::vectors::{BOOK, LOG};
use crate::logs::writing::{begun, bodies_of, file_of};
use file_devices::FailingSource;
use log_file::{LogFault, LogWriter, MemoryLog, read_log};
use std::alloc::Global;
use std::test::Fail;

// Where the header ends, and each entry.
const ENDS: [usize; 3] = [38, 93, 144];

// Writes the two entries, as far as calls are answered. Returns how many are synced.
fn write(alloc: Global, writer: &mut LogWriter<MemoryLog>) -> Result<usize, LogFault> {
    let first: &[&[u8]] = &[b"one", b"two!"];
    let second: &[&[u8]] = &[b"three"];
    if writer.append(&bodies_of(alloc, first)?).is_err() {
        return Ok(0);
    }
    if writer.append(&bodies_of(alloc, second)?).is_err() {
        return Ok(1);
    }
    Ok(2)
}

// Whether a file whose calls fail behind so many has, and keeps, the entries that are synced, and nothing is written behind a failure.
fn is_kept(alloc: Global, answers: u64) -> Result<bool, LogFault> {
    let Ok(mut writer) = begun(alloc, file_of(alloc, b"", 20, answers)?, BOOK) else {
        return Ok(answers < 5);
    };
    let count = write(alloc, &mut writer)?;
    let has_failed = writer.has_failed();
    let again = writer.append(&bodies_of(alloc, &[b"four"])?).err();
    let has = writer.file().bytes();
    let kept = writer.file().synced();
    let read = read_log(alloc, has, BOOK)?;
    Ok(
        has_failed == (count < 2)
            && (count == 2 || again == Some(LogFault::Failed))
            && (count == 2 || LOG.starts_with(has))
            && ENDS
                .get(count)
                .is_some_and(|end| kept.starts_with(LOG.get(..*end).unwrap_or(LOG)))
            && read.end.entries() >= count as u64,
    )
}

#[test]
fn what_is_synced_is_kept_by_whatever_fails(rt: HostRuntime) -> Result<(), Fail> {
    // The header takes a cut, a sync, two pieces of 20 bytes and a sync; an entry three pieces and a sync.
    for answers in 0..=14u64 {
        assert!(rt; is_kept(rt.alloc(), answers) == Ok(true), "{answers}");
    }
    Ok(())
}

#[test]
fn a_source_that_fails_is_told(rt: HostRuntime) {
    // Eight pieces of 20 bytes, and a last call that finds the end.
    for answers in 0..9u64 {
        let source = FailingSource::new(LOG, 20, answers);
        assert!(rt;
            read_log(rt.alloc(), source, BOOK).err() == Some(LogFault::Failed),
            "{answers}"
        );
    }
    let source = FailingSource::new(LOG, 20, 9);
    assert!(rt; read_log(rt.alloc(), source, BOOK).is_ok());
}
