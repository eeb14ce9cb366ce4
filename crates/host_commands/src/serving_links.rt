//! Several links at one live host.

ghost use Rattle.std.specs.Prelude.{◌≡◌, ◌≤◌, ℕ, List, All, IsFalse, None};
ghost use Rattle.host_commands.specs.Together.{AreAnswered};

use crate::link_names::LinkNames;
use crate::links_teller::LinksTeller;
use crate::logs::Logs;
use crate::opening::open_host;
use crate::settings::Settings;
use crate::telling::tell_of_opening;
use file_devices::Files;
use host_links::{LinkSink, LinkSource, Seat, WatchLinks, serve_links as serve_at};
use host_serving::{HostFault, Teller};
use issuer_rules::Shipped;
use std::alloc::Global;
use std::io::Write;
use std::sync::Wait;
use std::thread::Threads;

/// Serves links, on the book in the first file, with the log in the second, until all links have ended. Returns the exit status: 0 where all
/// that came was answered, else 1, and each fault stands on `err`: that of a link as `link 1 of IN`, by the name of its pipe, and one of the
/// log or of memory once. So do the size of a torn tail that was cut, the bodies that are no message, and, where the settings ask it, how it
/// goes. What `err` doesn't take is dropped.
pub fn serve_links<
    R: Threads + Wait + Copy + Sync,
    F: Files,
    L: Logs,
    I: LinkSource + Send + Drop,
    O: LinkSink + Send + Drop,
    E: Write + Drop + Send,
>(
    rt: &R,
    alloc: Global,
    files: &F,
    logs: &L,
    book: &str,
    log: &str,
    settings: Settings,
    links: &[LinkNames<'_>],
    seats: &mut [Seat<I, O>],
    err: E,
) -> u8
where
    L::Log: Send,
    ensures status { result ≤ 1 }
    // With status 0 no link had a fault, and all that came on each was served and answered.
    ensures served { (text bytes : List ℕ) → F.holds files.now book.now text → L.holds logs.now log.now bytes → result ≡ 0
        → AreAnswered I.is_known I.remaining O.is_known O.written text bytes seats.old seats.new × All (λ seat. seat.fault ≡ None) seats.new }
{
    let mut teller = Teller::new(alloc, err, settings.stats);
    let opened = match open_host(rt, alloc, files, book, logs, log, &Shipped) {
        Ok(opened) => opened,
        Err(fault) => {
            tell_of_opening(alloc, files, book, log, &fault, &mut teller.into_writer());
            return 1;
        }
    };
    teller.opened(opened.entries, opened.torn);
    let mut outcome = serve_at(
        rt,
        alloc,
        opened.host,
        LinksTeller::new(teller, links),
        seats,
        &Shipped,
        settings.max_batch,
    );
    // Each of these was told when it was met.
    if outcome.fault.is_some() || has_fault(seats) {
        return 1;
    }
    if !outcome.has_all {
        outcome.watch.link_stopped(0, &HostFault::OutOfMemory);
        return 1;
    }
    0
}

// Whether a link stopped with a fault.
fn has_fault<I: Drop, O: Drop>(seats: &[Seat<I, O>]) -> bool
    ensures { IsFalse result → All (λ seat. seat.fault ≡ None) seats.now }
{
    match seats.split_first() {
        None => false,
        Some((seat, rest)) => seat.fault().is_some() || has_fault(rest),
    }
}
