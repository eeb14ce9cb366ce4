//! Entries that are written.

use log_file::{Begun, Bodies, GrowingFile, LogFault, LogWriter, MemoryLog};
use std::alloc::{AllocError, Global};

/// The bodies of these texts.
pub(crate) fn bodies_of(alloc: Global, texts: &[&[u8]]) -> Result<Bodies, AllocError> {
    let mut bodies = Bodies::new(alloc);
    for text in texts {
        if (1..=512).contains(&text.len()) && !bodies.is_full() {
            bodies.push(text)?;
        }
    }
    Ok(bodies)
}

/// A file in memory that has these bytes. Calls take at most so many bytes, and fail once so many were answered.
pub(crate) fn file_of(
    alloc: Global,
    bytes: &[u8],
    piece: u8,
    answers: u64,
) -> Result<MemoryLog, AllocError> {
    let bytes = Vec::from_slice(alloc, bytes)?;
    Ok(MemoryLog::new(bytes, usize::from(piece).max(1), answers))
}

/// A new log in this file.
pub(crate) fn begun<G: GrowingFile + Drop>(
    alloc: Global,
    file: G,
    book: &[u8; 32],
) -> Result<LogWriter<G>, LogFault> {
    match LogWriter::begin(alloc, file, book)? {
        Begun::New(writer) => Ok(writer),
        Begun::Old(_) => Err(LogFault::NoLog),
    }
}
