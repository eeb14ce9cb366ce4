ghost use Rattle.std.specs.Prelude.{◌≡◌, ◌⊎◌, ◌≤◌, ⊤, ℕ, List, IfErr, OnOk};
ghost use Rattle.host_commands.specs.Served.{IsAnswered, IsServed};

use crate::ahead::serve_ahead;
use crate::logs::Logs;
use crate::opening::open_host;
use crate::serve_fault::ServeFault;
use crate::settings::Settings;
use crate::telling::tell_of_opening;
use file_devices::{Files, Sink, Source};
use host_serving::{MaxBatch, Teller};
use issuer_rules::Shipped;
use std::alloc::Global;
use std::io::Write;
use std::sync::Wait;
use std::thread::Threads;

/// Serves a link, on the book in the first file, with the log in the second, until the link ends or to the first fault. Returns the exit
/// status: 0 where all that came was answered, else 1, and the fault stands on `err`; behind that of an opening what is told of the book or
/// the log. So do the size of a torn tail that was cut, the bodies that are no message, and, where the settings ask it, how it goes. What
/// `err` doesn't take is dropped.
pub fn serve<
    R: Threads + Wait + Copy + Sync,
    F: Files,
    L: Logs,
    I: Source + Send,
    O: Sink,
    E: Write + Drop,
>(
    rt: &R,
    alloc: Global,
    files: &F,
    logs: &L,
    book: &str,
    log: &str,
    settings: Settings,
    source: &mut I,
    sink: &mut O,
    err: E,
) -> u8
    ensures status { result ≤ 1 }
    ensures served { (text bytes : List ℕ) → F.holds files.now book.now text → L.holds logs.now log.now bytes
        → I.is_known source.old → O.is_known sink.old
        → IsServed text bytes (I.remaining source.old) result (O.written sink.old) (O.written sink.new) }
{
    let mut teller = Teller::new(alloc, err, settings.stats);
    let most = settings.max_batch;
    match served(
        rt,
        alloc,
        files,
        logs,
        book,
        log,
        most,
        source,
        sink,
        &mut teller,
    ) {
        Ok(()) => 0,
        // One of serving was told at once.
        Err(ServeFault::Serving(_)) => 1,
        Err(ServeFault::Opening(fault)) => {
            tell_of_opening(alloc, files, book, log, &fault, &mut teller.into_writer());
            1
        }
    }
}

// The same, with the fault.
fn served<R: Threads + Wait + Copy + Sync, F: Files, L: Logs, I: Source + Send, O: Sink, E: Write>(
    rt: &R,
    alloc: Global,
    files: &F,
    logs: &L,
    book: &str,
    log: &str,
    most: MaxBatch,
    source: &mut I,
    sink: &mut O,
    teller: &mut Teller<E>,
) -> Result<(), ServeFault>
    ensures ok { (text bytes : List ℕ) → F.holds files.now book.now text → L.holds logs.now log.now bytes
        → I.is_known source.old → O.is_known sink.old
        → OnOk result (IsAnswered text bytes (I.remaining source.old) (O.written sink.old) (O.written sink.new) ⊤) }
    ensures err { (text bytes : List ℕ) → F.holds files.now book.now text → L.holds logs.now log.now bytes
        → I.is_known source.old → O.is_known sink.old
        → IfErr result (λ _. (O.written sink.new ≡ O.written sink.old)
        ⊎ IsAnswered text bytes (I.remaining source.old) (O.written sink.old) (O.written sink.new) ⊥) }
{
    let mut opened = open_host(rt, alloc, files, book, logs, log, &Shipped)?;
    teller.opened(opened.entries, opened.torn);
    serve_ahead(rt, alloc, &mut opened.host, source, sink, most, teller)?;
    Ok(())
}
