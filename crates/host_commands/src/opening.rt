ghost use Rattle.std.specs.Prelude.{◌≡◌, ◌++◌, ℕ, List, IfOk, IfErr};
ghost use Rattle.host_commands.specs.Again.{IsResumed};
ghost use Rattle.host_commands.specs.Opening.{book_digest, GoesOn, IsOpened};
ghost use Rattle.host_commands.specs.OpeningFault.{IsLogFault, IsOpeningFault};

use crate::again::decide_again;
use crate::logs::Logs;
use crate::opened::Opened;
use crate::opening_fault::OpeningFault;
use book_json::read_book;
use book_text::digest_of_book;
use file_devices::{Files, read_file};
use host_serving::{Decider, Host};
use issuer_rows::Book;
use issuer_view::Decide;
use log_file::{Begun, GrowingFile, LogInput, LogReader, LogWriter};
use std::alloc::Global;
use std::sync::Wait;
use std::thread::Threads;

/// Opens a live host: reads the book of the first name, opens the log of the second one, and decides again the messages that the log holds,
/// one after another, by any local decision. A torn tail of the log is cut; in an empty file a log is begun. The first fault is told: of the
/// book's file, of the book, then of the log, which isn't opened, nor made, where the book has a fault.
pub fn open_host<R: Threads + Wait + Sync, F: Files, L: Logs, D: Decide>(
    rt: &R,
    alloc: Global,
    files: &F,
    book: &str,
    logs: &L,
    log: &str,
    decision: &D,
) -> Result<Opened<L::Log>, OpeningFault>
    // The host's book is the one after the messages of its log, and its log has what the file had, synced.
    ensures opened { (text bytes : List ℕ) → F.holds files.now book.now text → L.holds logs.now log.now bytes
        → IfOk result (λ opened. IsOpened L.Log.is_known L.Log.synced L.Log.unsynced text bytes opened.host) }
    ensures fault { (text bytes : List ℕ) → F.holds files.now book.now text
        → IfErr result (IsOpeningFault ((F.failing files.now).reading book.now) text (L.holds logs.now log.now bytes) bytes) }
{
    let text = read_file(alloc, files, book)?;
    let book = read_book(rt, alloc, &text)?;
    let file = logs.open(log)?;
    go_on(alloc, book, file, decision)
}

// The host on this book that goes on behind the log in this file.
fn go_on<G: GrowingFile + Drop, D: Decide>(
    alloc: Global,
    book: Book,
    file: G,
    decision: &D,
) -> Result<Opened<G>, OpeningFault>
    ensures gone_on { G.is_known file
        → IfOk result (λ opened. GoesOn G.is_known G.synced G.unsynced book (G.synced file ++ G.unsynced file) opened.host) }
    ensures fault { IfErr result (IsLogFault (G.is_known file) (book_digest book) (G.synced file ++ G.unsynced file)) }
{
    let digest = digest_of_book(alloc, &book)?;
    let decider = Decider::new(alloc, book);
    match LogWriter::begin(alloc, file, &digest)? {
        Begun::New(log) => Ok(Opened {
            host: Host::new(decider, log),
            entries: 0,
            torn: 0,
        }),
        Begun::Old(file) => resumed(alloc, file, &digest, decider, decision),
    }
}

// The host over this book that goes on with the log in this file.
fn resumed<G: GrowingFile + Drop, D: Decide>(
    alloc: Global,
    file: G,
    digest: &[u8; 32],
    decider: Decider,
    decision: &D,
) -> Result<Opened<G>, OpeningFault>
    ensures resumed { G.is_known file → IfOk result (λ opened. IsResumed G.is_known G.synced G.unsynced digest.now file decider opened.host) }
    ensures fault { IfErr result (IsLogFault (G.is_known file) digest.now (G.synced file ++ G.unsynced file)) }
{
    let mut decider = decider;
    let reader = LogReader::open(alloc, LogInput::new(&file), digest)?;
    let end = decide_again(alloc, reader, &mut decider, decision)?;
    let log = LogWriter::resume(alloc, file, end)?;
    Ok(Opened {
        host: Host::new(decider, log),
        entries: end.entries(),
        torn: end.tail(),
    })
}
