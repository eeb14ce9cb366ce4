ghost use Rattle.host_links.specs.Kept.{IsKept};

use crate::buffers::LinkBuffers;
use crate::history::{Came, Front, History};
use crate::naming::Before;
use crate::seat::{Seat, SeenTurns};
use crate::turning::{messages_behind, turn_at};
use crate::watch_links::WatchLinks;
use host_serving::{Host, HostFault};
use issuer_view::Decide;
use log_file::GrowingFile;
use std::alloc::Global;
use std::marker::PhantomData;
use std::thread::Threads;

// As many turns fit into a history. No disk can hold so many entries.
const MOST_TURNS: u64 = 1 << 61;

/// A host that several links share, and whoever is told of its entries. Each link takes its turns at it, one after another.
#[derive(Drop)]
pub struct SharedHost<G: GrowingFile + Drop, N: WatchLinks + Drop, J: Before<G>> {
    host: Host<G>,
    watch: N,
    front: Front<J>,
    // How many turns each link had.
    counts: Vec<u64>,
    // The fault after which no link is served.
    fault: Option<HostFault>,
    // Whether it was told.
    is_told: bool,
    of: PhantomData<J>,
    ghost kept: { ∥ IsKept G.is_known G.synced G.unsynced J.opening J.tally J.log host fault counts.items front ∥₁ },
}

impl<G: GrowingFile + Drop, N: WatchLinks + Drop, J: Before<G>> SharedHost<G, N, J> {
    ghost use Rattle.std.specs.Prelude.{◌≡◌, ◌+◌, ◌<◌, ◌++◌, ◌^◌, [], length, replicate, IfOk, IsTrue, OnErr, OnOk, Some, slice_get, slice_index_or, ℕ};
    ghost use Rattle.host_links.specs.Merged.{HasAllTurns, HasSeenAll, IsOfBook};
    ghost use mathlib.Core.List.{IsPrefix};
    ghost use Rattle.host_serving.specs.Entering.{book_of};
    ghost use Rattle.host_serving.specs.Turn.{HasTaken};
    ghost use Rattle.host_links.specs.Turns.{came_on, given_to, turns_of};

    /// A host at which no link had a turn yet. There are as many links as counts.
    pub fn new(host: Host<G>, watch: N, front: Front<J>, counts: Vec<u64>) -> SharedHost<G, N, J>
        requires none { front ≡ [] }
        requires book { book_of host ≡ J.opening }
        requires tally { host.decider.tally ≡ J.tally }
        requires log { J.log ≡ Some host.log }
        requires counts { counts.items ≡ replicate (length counts.items) 0 }
        ensures front { result.front ≡ [] }
    {
        SharedHost {
            host,
            watch,
            front,
            counts,
            fault: None,
            is_told: false,
            of: PhantomData,
        }
    }

    // Whether this front begins the history and has all turns of the link, which are so many; and whether there is room for one more.
    fn is_met(&self, link: usize, me: &Front<J>, count: u64) -> bool
        ensures count { IsTrue result → slice_get self.now.counts.items link ≡ Some count }
        ensures begins { IsTrue result → IsPrefix me.now self.now.front }
        ensures room { IsTrue result → length self.now.front < 2 ^ 61 }
    {
        match self.counts.get(link) {
            Some(had) if *had == count && self.front.len() < MOST_TURNS => me.begins(&self.front),
            _ => false,
        }
    }

    // Whether a link that has seen these turns has seen all its own.
    fn has_all_of(&self, link: usize, seen: &SeenTurns) -> bool
        requires { seen.now.trace.seen.book ≡ J.book }
        ensures { IsTrue result → HasAllTurns link self.now.front self.now.counts.items seen.now }
    {
        let front = Front::of(&seen.trace);
        self.is_met(link, &front, seen.count)
    }

    // Whether each of these links has seen all its own turns.
    pub(crate) fn has_all<I, O>(&self, seats: &[Seat<I, O>]) -> bool
        requires { (link : ℕ) (other : _) → link < length seats.now → IsOfBook J.book (slice_index_or seats.now link other) }
        ensures { IsTrue result → (link : ℕ) (other : _) → link < length seats.now
            → HasSeenAll link self.now.front self.now.counts.items (slice_index_or seats.now link other) }
    {
        for link in 0..seats.len() {
            match &seats[link].seen {
                Some(seen) if self.has_all_of(link, seen) => {}
                _ => return false,
            }
        }
        true
    }

    /// The host behind all turns, whoever is told of its entries, and the fault with which it stopped, if it did.
    pub fn into_parts(self) -> (Host<G>, N, Option<HostFault>)
        ensures { ∥ IsKept G.is_known G.synced G.unsynced J.opening J.tally J.log result.0 result.2 self.counts.items self.front ∥₁ }
    {
        let SharedHost {
            host,
            watch,
            fault,
            ..
        } = self;
        (host, watch, fault)
    }

    /// Tells that a link stopped with a fault: with its own, or with that of the log or of memory, which is told once.
    pub(crate) fn tell_stopped(&mut self, link: usize, fault: &HostFault) {
        match fault {
            HostFault::Link(_) => self.watch.link_stopped(link, fault),
            HostFault::Log(_) | HostFault::OutOfMemory => {
                if !self.is_told {
                    self.is_told = true;
                    self.watch.link_stopped(link, fault);
                }
            }
        }
    }

    /// Serves what came in a turn of this link, and keeps the answers to it in its buffers, to be written once the host is another's: its
    /// bodies became an entry of the log, which is synced. The link shows which turns it has seen, and how many of them are its own. After a
    /// fault, which is of the log or of memory, no link is served any further.
    pub fn serve_turn<R: Threads + Sync, F: Decide + Sync>(
        &mut self,
        rt: &R,
        alloc: Global,
        history: &History<J>,
        link: usize,
        bytes: &[u8],
        buffers: &mut LinkBuffers,
        me: &mut Front<J>,
        count: u64,
        decision: &F,
    ) -> Result<u64, HostFault>
        requires came { HasTaken bytes.now [] buffers.old.turn }
        requires count { turns_of link me.old ≡ count }
        ensures came { OnOk result (came_on link me.new ≡ came_on link me.old ++ bytes.now) }
        ensures given { OnOk result (given_to link J.opening me.new ≡ given_to link J.opening me.old ++ buffers.new.replies.items) }
        ensures count { IfOk result (λ more. turns_of link me.new ≡ more) }
        ensures err { OnErr result (me.new ≡ me.old) }
    {
        match self.fault {
            Some(fault) => return Err(fault),
            None => {}
        }
        if count >= MOST_TURNS || !self.is_met(link, me, count) {
            return Err(HostFault::OutOfMemory);
        }
        let turned = turn_at(
            rt,
            alloc,
            &mut self.host,
            &mut self.watch,
            link,
            bytes,
            buffers,
            decision,
        );
        match turned {
            Ok(()) => {}
            Err(fault) => {
                self.fault = Some(fault);
                return Err(fault);
            }
        }
        let came = Came {
            link,
            bytes,
            bodies: &buffers.turn.bodies,
            requests: &buffers.turn.requests,
            messages: messages_behind(&self.host, &buffers.turn.bodies),
        };
        let mut front = self.front.again();
        if !front.add(history, &came) {
            self.fault = Some(HostFault::OutOfMemory);
            return Err(HostFault::OutOfMemory);
        }
        *me = front.again();
        self.front = front;
        self.counts[link] = count + 1;
        Ok(count + 1)
    }
}
