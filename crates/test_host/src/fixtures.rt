use book_json::write_book;
use file_devices::{FailingSink, MemoryFiles};
use host_commands::{Logs, Opened, OpeningFault, open_host};
use host_serving::{MaxBatch, Unwatched};
use issuer_rows::Book;
use issuer_rules::Shipped;
use log_file::{MemoryLog, OpenFault};
use std::alloc::Global;
use std::sync::Wait;
use std::thread::Threads;

/// A copy of these bytes.
pub(crate) fn copy_of(alloc: Global, bytes: &[u8]) -> Option<Vec<u8>> {
    let mut copy = Vec::new(alloc);
    copy.extend_from_slice(bytes).ok()?;
    Some(copy)
}

/// Logs that all have these bytes, in files that answer so many calls.
#[derive(Drop)]
pub(crate) struct CopiedLogs {
    pub(crate) alloc: Global,
    pub(crate) bytes: Vec<u8>,
    pub(crate) answers: u64,
}

impl Logs for CopiedLogs {
    type Log = MemoryLog;

    ghost holds = { λ _ _ _. ⊥ };

    fn open(&self, _name: &str) -> Result<MemoryLog, OpenFault> {
        match copy_of(self.alloc, &self.bytes) {
            Some(bytes) => Ok(MemoryLog::new(bytes, 4096, self.answers)),
            None => Err(OpenFault::OutOfMemory),
        }
    }
}

/// The file `book` with this book.
pub(crate) fn files(alloc: Global, book: &Book) -> Option<MemoryFiles> {
    let mut files = MemoryFiles::new(alloc);
    files.put("book", write_book(alloc, book).ok()?).ok()?;
    Some(files)
}

/// A host on this book, with a log in these bytes.
pub(crate) fn open<R: Threads + Wait + Sync>(
    rt: &R,
    alloc: Global,
    book: &Book,
    log: Vec<u8>,
) -> Result<Opened<MemoryLog>, OpeningFault> {
    let Some(files) = files(alloc, book) else {
        return Err(OpeningFault::OutOfMemory);
    };
    let logs = CopiedLogs {
        alloc,
        bytes: log,
        answers: 1000,
    };
    open_host(rt, alloc, &files, "book", &logs, "log", &Shipped)
}

/// What a crash keeps of the log of a host that goes on with this one and serves a link, and what it wrote.
pub(crate) fn serve_link<R: Threads + Wait + Sync>(
    rt: &R,
    alloc: Global,
    book: &Book,
    log: Vec<u8>,
    link: &[u8],
) -> Option<(Vec<u8>, Vec<u8>)> {
    let mut opened = open(rt, alloc, book, log).ok()?;
    let mut source = link;
    let mut sink = FailingSink::new(alloc, 4096, 1000);
    opened
        .host
        .serve_link(
            rt,
            alloc,
            &mut source,
            &mut sink,
            &Shipped,
            MaxBatch::whole_entry(),
            &mut Unwatched,
        )
        .ok()?;
    let kept = copy_of(alloc, opened.host.log().file().synced())?;
    Some((kept, copy_of(alloc, sink.taken())?))
}
