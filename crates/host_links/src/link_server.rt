ghost use Rattle.std.specs.Prelude.{◌≡◌, ◌++◌, ℕ, List, [], false, true, OnErr, OnOk, Ok};
ghost use Rattle.link_frames.specs.Reader.{ahead, given};
ghost use Rattle.link_frames.specs.Replies.{AppendsPart};
ghost use Rattle.host_serving.specs.Turn.{HasTaken};
ghost use Rattle.host_links.specs.Fresh.{IsFresh};
ghost use Rattle.host_links.specs.Lines.{ServesLink, TakesTurn};
ghost use Rattle.host_links.specs.Seats.{SeatServed};
ghost use Rattle.host_links.specs.Turns.{came_on, given_to, turns_of};

use crate::ends::{LinkSink, LinkSource};
use crate::history::{Front, History};
use crate::naming::Before;
use crate::seat::{Seat, SeenTurns};
use crate::served_link::ServedLink;
use crate::shared_host::SharedHost;
use crate::watch_links::WatchLinks;
use file_devices::{Sink, Source};
use host_serving::{HostFault, MaxBatch, take_turn};
use issuer_view::Decide;
use link_frames::{LinkFault, put_all};
use log_file::GrowingFile;
use std::alloc::Global;
use std::sync::{Mutex, Wait};
use std::thread::Threads;

/// What a thread has that serves one of several links, and what is the same for each of them: the host that they share, the history of its
/// turns, the decision, and how many frames are taken in one turn at most.
#[derive(Drop)]
pub(crate) struct LinkServer<'a, R, G, N, J, F>
where
    R: Threads + Wait + Sync,
    G: GrowingFile + Drop,
    N: WatchLinks + Drop,
    J: Before<G>,
    F: Decide + Sync,
{
    pub(crate) rt: &'a R,
    pub(crate) alloc: Global,
    pub(crate) shared: &'a Mutex<SharedHost<G, N, J>>,
    pub(crate) history: &'a History<J>,
    pub(crate) decision: &'a F,
    pub(crate) most: MaxBatch,
}

impl<R, G, N, J, F> LinkServer<'_, R, G, N, J, F>
where
    R: Threads + Wait + Sync,
    G: GrowingFile + Drop,
    N: WatchLinks + Drop,
    J: Before<G>,
    F: Decide + Sync,
{
    /// Serves one link, closes it, and keeps what it came to. A fault is told at once.
    pub(crate) fn serve_seat<I: LinkSource, O: LinkSink>(
        &self,
        none: &Front<J>,
        link: usize,
        seat: &mut Seat<I, O>,
    )
        requires { none.now ≡ [] }
        ensures { SeatServed I.is_known I.remaining O.is_known O.written J.book link J.opening seat.old seat.new }
    {
        let (seen, served) = self.serve_fresh(none, link, &mut seat.source, &mut seat.sink);
        seat.seen = Some(seen);
        seat.sink.close();
        seat.source.close();
        match served {
            Ok(()) => seat.fault = None,
            Err(fault) => {
                seat.fault = Some(fault);
                self.shared.lock(self.rt).tell_stopped(link, &fault);
            }
        }
    }

    // Serves one link with memory of its own, and returns what it has seen, and what serving came to.
    fn serve_fresh<I: LinkSource, O: LinkSink>(
        &self,
        none: &Front<J>,
        link: usize,
        source: &mut I,
        sink: &mut O,
    ) -> (SeenTurns, Result<(), HostFault>)
        requires { none.now ≡ [] }
        ensures book { result.0.trace.seen.book ≡ J.book }
        ensures serves { ServesLink I.is_known I.remaining O.is_known O.written link J.opening result.0.trace.seen.log result.0.count
            source.old sink.old sink.new result.1 }
    {
        let Ok(mut state) = ServedLink::new(self.alloc, none) else {
            let seen = SeenTurns {
                trace: none.trace(),
                count: 0,
            };
            return (seen, Err(HostFault::OutOfMemory));
        };
        let served = self.serve_ends(link, &mut state, source, sink);
        let seen = SeenTurns {
            trace: state.front.trace(),
            count: state.count,
        };
        (seen, served)
    }

    // Opens a link, the source first, and serves it.
    fn serve_ends<I: LinkSource, O: LinkSink>(
        &self,
        link: usize,
        state: &mut ServedLink<J>,
        source: &mut I,
        sink: &mut O,
    ) -> Result<(), HostFault>
        requires { IsFresh state.old }
        ensures { ServesLink I.is_known I.remaining O.is_known O.written link J.opening state.new.front state.new.count
            source.old sink.old sink.new result }
    {
        if source.open().is_err() {
            return Err(HostFault::Link(LinkFault::Unreadable));
        }
        if sink.open().is_err() {
            return Err(HostFault::Link(LinkFault::Unwritable));
        }
        self.serve_turns(link, state, source, sink)
    }

    // Serves a link until it ends, or to the first fault. What has come when the link has its turn becomes one entry of the log, and its
    // answers are written once the host is another's: a link whose replies nobody takes holds up no other.
    fn serve_turns<I: Source, O: Sink>(
        &self,
        link: usize,
        state: &mut ServedLink<J>,
        source: &mut I,
        sink: &mut O,
    ) -> Result<(), HostFault>
        requires { IsFresh state.old }
        ensures { ServesLink I.is_known I.remaining O.is_known O.written link J.opening state.new.front state.new.count
            source.old sink.old sink.new result }
    {
        for _ in 0..u64::MAX {
            if !self.serve_next(link, state, source, sink)? {
                return Ok(());
            }
        }
        // No disk can hold so many entries.
        Err(HostFault::OutOfMemory)
    }

    // Waits for frames, has those that have come served, and writes the answers to them once the host is another's. Returns false at the
    // link's end.
    fn serve_next<I: Source, O: Sink>(
        &self,
        link: usize,
        state: &mut ServedLink<J>,
        source: &mut I,
        sink: &mut O,
    ) -> Result<bool, HostFault>
        requires count { turns_of link state.old.front ≡ state.old.count }
        ensures source { I.is_known source.old → I.is_known source.new }
        ensures sink { O.is_known sink.old → O.is_known sink.new }
        ensures count { turns_of link state.new.front ≡ state.new.count }
        ensures next { result ≡ Ok true → TakesTurn link J.opening state.old.front state.new.front
            (I.is_known source.old) (ahead state.old.reader (I.remaining source.old)) (ahead state.new.reader (I.remaining source.new))
            (λ replies. O.is_known sink.old → O.written sink.new ≡ O.written sink.old ++ replies) }
        ensures end { result ≡ Ok false → (state.new.front ≡ state.old.front) × (sink.new ≡ sink.old)
            × (I.is_known source.old → ahead state.old.reader (I.remaining source.old) ≡ []) }
        ensures err { OnErr result ((rest : List ℕ) × TakesTurn link J.opening state.old.front state.new.front
            (I.is_known source.old) (ahead state.old.reader (I.remaining source.old)) rest
            (λ replies. O.is_known sink.old → AppendsPart (O.written sink.old) (O.written sink.new) replies)) }
    {
        let count = state.reader.next(source, self.most.count())?;
        if count == 0 {
            return Ok(false);
        }
        take_turn(&mut state.buffers.turn, state.reader.frames(), count)?;
        self.serve_locked(link, state)?;
        put_all(sink, &state.buffers.replies)?;
        Ok(true)
    }

    // Waits for the host, and has what came served.
    fn serve_locked(&self, link: usize, state: &mut ServedLink<J>) -> Result<(), HostFault>
        requires came { HasTaken (given state.old.reader) [] state.old.buffers.turn }
        requires count { turns_of link state.old.front ≡ state.old.count }
        ensures reader { state.new.reader ≡ state.old.reader }
        ensures came { OnOk result (came_on link state.new.front ≡ came_on link state.old.front ++ given state.old.reader) }
        ensures given { OnOk result (given_to link J.opening state.new.front ≡ given_to link J.opening state.old.front ++ state.new.buffers.replies.items) }
        ensures count { turns_of link state.new.front ≡ state.new.count }
        ensures err { OnErr result (state.new.front ≡ state.old.front) }
    {
        let turned = self.shared.lock(self.rt).serve_turn(
            self.rt,
            self.alloc,
            self.history,
            link,
            state.reader.frames(),
            &mut state.buffers,
            &mut state.front,
            state.count,
            self.decision,
        );
        match turned {
            Ok(count) => {
                state.count = count;
                Ok(())
            }
            Err(fault) => Err(fault),
        }
    }
}
