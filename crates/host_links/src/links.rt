//! Links that share a host, each served by a thread of its own.

ghost use Rattle.std.specs.Prelude.{◌≡◌, ℕ, [], ◌<◌, IsTrue, Some, length, replicate, slice_index_or};
ghost use Rattle.host_serving.specs.Entering.{book_of};
ghost use Rattle.host_links.specs.Merged.{LinkMerged, MergesAll};
ghost use Rattle.host_links.specs.Seats.{SeatServed};

use crate::ends::{LinkSink, LinkSource};
use crate::history::{Front, History, Opened};
use crate::link_server::LinkServer;
use crate::links_outcome::LinksOutcome;
use crate::naming::Before;
use crate::seat::Seat;
use crate::shared_host::SharedHost;
use crate::watch_links::WatchLinks;
use host_serving::{Host, HostFault, MaxBatch};
use issuer_view::Decide;
use log_file::GrowingFile;
use std::alloc::Global;
use std::marker::Brand;
use std::sync::{Mutex, Wait};
use std::thread;
use std::thread::Threads;

/// Serves links at the host that they share, each in a thread of its own, until all have ended. A fault of one link ends that link alone; one
/// of the log or of memory in a turn ends each at its next turn. The links have the numbers from 0 on. Where no thread can be made, they are
/// served one after another.
fn serve_seats<
    R: Threads + Wait + Sync,
    G: GrowingFile + Drop + Send,
    N: WatchLinks + Drop + Send,
    J: Before<G> + Send + Sync,
    I: LinkSource + Send,
    O: LinkSink + Send,
    F: Decide + Sync,
>(
    rt: &R,
    alloc: Global,
    shared: &Mutex<SharedHost<G, N, J>>,
    history: &History<J>,
    none: &Front<J>,
    seats: &mut [Seat<I, O>],
    decision: &F,
    most: MaxBatch,
)
    requires { none.now ≡ [] }
    ensures { (link : ℕ) (other : _) → link < length seats.old
        → SeatServed I.is_known I.remaining O.is_known O.written J.book link J.opening (slice_index_or seats.old link other) (slice_index_or seats.new link other) }
{
    let threads = seats.len();
    if threads == 0 {
        return;
    }
    thread::for_each_mut(
        rt,
        seats,
        threads,
        &|link, seat| -> ()
            requires { none.now ≡ [] }
            ensures { SeatServed I.is_known I.remaining O.is_known O.written J.book link J.opening seat.entry.now seat.exit.now }
        {
            let server = LinkServer {
                rt,
                alloc,
                shared,
                history,
                decision,
                most,
            };
            server.serve_seat(none, link, seat)
        },
    );
}

// Serves links at a host that they share, as `serve_seats` does, and gives the host back behind all their turns, which are those of its
// front.
fn serve_shared<
    R: Threads + Wait + Sync,
    G: GrowingFile + Drop + Send,
    N: WatchLinks + Drop + Send,
    J: Before<G> + Send + Sync,
    I: LinkSource + Send,
    O: LinkSink + Send,
    F: Decide + Sync,
>(
    rt: &R,
    alloc: Global,
    shared: SharedHost<G, N, J>,
    history: &History<J>,
    none: &Front<J>,
    seats: &mut [Seat<I, O>],
    decision: &F,
    most: MaxBatch,
) -> (SharedHost<G, N, J>, bool)
    requires { none.now ≡ [] }
    ensures { IsTrue result.1 → (link : ℕ) (other : _) → link < length seats.old
        → LinkMerged I.is_known I.remaining O.is_known O.written link J.opening result.0.front (slice_index_or seats.old link other) (slice_index_or seats.new link other) }
{
    let shared = Mutex::new(shared);
    serve_seats(rt, alloc, &shared, history, none, seats, decision, most);
    let behind = shared.into_inner();
    let has_all = behind.has_all(seats);
    (behind, has_all)
}

// The same, over this history, and the host behind it.
fn serve_named<
    J: Before<G> + Send + Sync,
    R: Threads + Wait + Sync,
    G: GrowingFile + Drop + Send,
    N: WatchLinks + Drop + Send,
    I: LinkSource + Send,
    O: LinkSink + Send,
    F: Decide + Sync,
>(
    rt: &R,
    alloc: Global,
    opened: Opened,
    host: Host<G>,
    watch: N,
    counts: Vec<u64>,
    seats: &mut [Seat<I, O>],
    decision: &F,
    most: MaxBatch,
) -> LinksOutcome<G, N>
    requires history { opened.seen.book ≡ J.book }
    requires book { book_of host ≡ J.opening }
    requires tally { host.decider.tally ≡ J.tally }
    requires log { J.log ≡ Some host.log }
    requires counts { counts.items ≡ replicate (length seats.old) 0 }
    ensures { MergesAll G.is_known G.synced G.unsynced I.is_known I.remaining O.is_known O.written host result seats.old seats.new }
{
    let (history, none) = opened.named::<J>();
    let shared = SharedHost::new(host, watch, none.again(), counts);
    let (behind, has_all) = serve_shared(rt, alloc, shared, &history, &none, seats, decision, most);
    let (host, watch, fault) = behind.into_parts();
    LinksOutcome {
        host,
        watch,
        fault,
        has_all,
    }
}

/// Serves links at one host, each by a thread of its own, until all have ended, and gives the host back. What has come on a link when it has
/// its turn becomes one entry of the log, and its answers are written once the host is another's. A fault of one link ends that link alone;
/// one of the log or of memory in a turn ends each at its next turn. A link's source is opened first, then its sink; both are closed at the
/// link's end. Where no thread can be made, links are served one after another.
pub fn serve_links<
    R: Threads + Wait + Sync,
    G: GrowingFile + Drop + Send,
    N: WatchLinks + Drop + Send,
    I: LinkSource + Send,
    O: LinkSink + Send,
    F: Decide + Sync,
>(
    rt: &R,
    alloc: Global,
    host: Host<G>,
    watch: N,
    seats: &mut [Seat<I, O>],
    decision: &F,
    most: MaxBatch,
) -> LinksOutcome<G, N>
    ensures { MergesAll G.is_known G.synced G.unsynced I.is_known I.remaining O.is_known O.written host result seats.old seats.new }
{
    let Ok(counts) = vec![in alloc; 0; seats.len()] else {
        let mut watch = watch;
        watch.link_stopped(0, &HostFault::OutOfMemory);
        return LinksOutcome {
            host,
            watch,
            fault: Some(HostFault::OutOfMemory),
            has_all: false,
        };
    };
    let opened = Opened::new();
    serve_named::<Brand, R, G, N, I, O, F>(
        rt, alloc, opened, host, watch, counts, seats, decision, most,
    )
}
