use crate::answering::answer;
use crate::host::Host;
use crate::host_fault::HostFault;
use crate::max_batch::MaxBatch;
use crate::taking::take_turn;
use crate::together::decide_and_append;
use crate::turn::Turn;
use crate::watch::Watch;
use file_devices::{Sink, Source};
use issuer_view::Decide;
use link_frames::{LinkFault, LinkReader, ReplyWriter};
use log_file::GrowingFile;
use std::alloc::{AllocError, Global};
use std::mem;
use std::thread::Threads;

// The memory of a link: what came on it, what is about to be written, and what came in one turn.
#[derive(Drop)]
struct Link {
    reader: LinkReader,
    writer: ReplyWriter,
    turn: Turn,
}

impl Link {
    ghost use Rattle.std.specs.Prelude.{◌≡◌, [], IfOk};
    ghost use Rattle.link_frames.specs.Reader.{kept};

    // Nothing has come yet.
    fn new(alloc: Global) -> Result<Link, AllocError>
        ensures { IfOk result (λ link. kept link.reader ≡ []) }
    {
        Ok(Link {
            reader: LinkReader::new(alloc)?,
            writer: ReplyWriter::new(alloc),
            turn: Turn::new(alloc),
        })
    }
}

impl<G: GrowingFile + Drop> Host<G> {
    ghost use Rattle.std.specs.Prelude.{◌≡◌, ◌≢◌, ◌⊎◌, ◌≤◌, ℕ, [], List, length, true, false, Ok, Err, OnOk, IfOk, IfErr};
    ghost use Rattle.file_laws.specs.Frames.{AreFramesOf};
    ghost use Rattle.link_frames.specs.Incoming.{Incoming};
    ghost use Rattle.link_frames.specs.LinkFault.{Reads, Writes};
    ghost use Rattle.link_frames.specs.Reader.{ahead};
    ghost use Rattle.host_serving.specs.HostFault.{of_link};
    ghost use Rattle.host_serving.specs.Entering.{Enters, Grows, StopsEntering};
    ghost use Rattle.host_serving.specs.Turn.{IsTurn};
    ghost use Rattle.host_serving.specs.Serving.{LogAfter, Served, Stopped, StopsReading, EntersNext, StopsInEntry};
    ghost use Rattle.host_serving.specs.Watched.{Watched, WatchedSoFar};

    // Answers the network management requests that came in a turn without bodies.
    fn answer_requests<W: Sink>(
        &self,
        turn: Turn,
        writer: &mut ReplyWriter,
        sink: &mut W,
    ) -> Result<Turn, HostFault>
        requires none { turn.bodies ≡ [] }
        ensures sink { Writes W.is_known W.has_failed W.may_fail sink.old sink.new (of_link result) }
        ensures ok { (incoming : List Incoming) → IsTurn incoming turn → OnOk result (Enters G.is_known G.synced G.unsynced incoming
            self.now self.now (W.is_known sink.old) (W.written sink.old) (W.written sink.new)) }
        ensures err { (incoming : List Incoming) → IsTurn incoming turn
            → IfErr result (λ e. StopsEntering G.is_known G.synced G.unsynced e incoming
            self.now self.now (W.is_known sink.old) (W.written sink.old) (W.written sink.new)) }
        ensures kinds { result ≢ Err (HostFault.Link LinkFault.Unreadable) }
        ensures kept { IfOk result (λ again. (again.bodies ≡ turn.bodies) × (again.requests.items ≡ turn.requests.items)) }
        ensures log { IfErr result (λ e. LogAfter G.is_known G.synced G.unsynced e self.now.log self.now.log []) }
    {
        writer.write(&[], &turn.requests, sink)?;
        Ok(turn)
    }

    // Decides the messages of the bodies that came in this turn while their entry is appended to the log, and once it is synced answers them and
    // the network management requests between them, in order.
    fn enter_bodies<R: Threads + Sync, W: Sink, F: Decide + Sync, N: Watch>(
        &mut self,
        rt: &R,
        alloc: Global,
        turn: Turn,
        writer: &mut ReplyWriter,
        sink: &mut W,
        decision: &F,
        watch: &mut N,
    ) -> Result<Turn, HostFault>
        requires some { turn.bodies ≢ [] }
        ensures sink { Writes W.is_known W.has_failed W.may_fail sink.old sink.new (of_link result) }
        ensures ok { (incoming : List Incoming) → IsTurn incoming turn → OnOk result (Enters G.is_known G.synced G.unsynced incoming
            self.old self.new (W.is_known sink.old) (W.written sink.old) (W.written sink.new)) }
        ensures err { (incoming : List Incoming) → IsTurn incoming turn
            → IfErr result (λ e. StopsEntering G.is_known G.synced G.unsynced e incoming
            self.old self.new (W.is_known sink.old) (W.written sink.old) (W.written sink.new)) }
        ensures kinds { result ≢ Err (HostFault.Link LinkFault.Unreadable) }
        ensures kept { IfOk result (λ again. (again.bodies ≡ turn.bodies) × (again.requests.items ≡ turn.requests.items)) }
        ensures frames { OnOk result (AreFramesOf turn.bodies self.new.decider.frames.items) }
        ensures told { (most : ℕ) → length turn.bodies ≤ most → OnOk result (Watched (Grows G.is_known G.synced G.unsynced self.old.log self.new.log)
            most N.hears watch.old self.old.decider.tally watch.new self.new.decider.tally) }
        ensures told_before { (most : ℕ) → length turn.bodies ≤ most → IfErr result (λ e. WatchedSoFar (LogAfter G.is_known G.synced G.unsynced e self.old.log self.new.log)
            most N.hears watch.old self.old.decider.tally watch.new) }
    {
        let before = self.decider.tally();
        let (decided, synced) = decide_and_append(
            rt,
            alloc,
            &mut self.decider,
            &mut self.log,
            &turn.bodies,
            decision,
        );
        decided?;
        let synced = synced?;
        watch.entry_synced(before, self.decider.frames());
        answer(writer, &synced, &self.decider, &turn.requests, sink)?;
        Ok(turn)
    }

    /// Serves what came in one turn of a link: its bodies become an entry of the log, which is decided, synced and answered, as
    /// `serve_link` does it; where no body came, there is no entry. The turn is given back, for its memory. Several links can have their
    /// turns at one host, one after another.
    pub fn enter<R: Threads + Sync, W: Sink, F: Decide + Sync, N: Watch>(
        &mut self,
        rt: &R,
        alloc: Global,
        turn: Turn,
        writer: &mut ReplyWriter,
        sink: &mut W,
        decision: &F,
        watch: &mut N,
    ) -> Result<Turn, HostFault>
        ensures sink { Writes W.is_known W.has_failed W.may_fail sink.old sink.new (of_link result) }
        ensures ok { (incoming : List Incoming) → IsTurn incoming turn → OnOk result (Enters G.is_known G.synced G.unsynced incoming
            self.old self.new (W.is_known sink.old) (W.written sink.old) (W.written sink.new)) }
        ensures err { (incoming : List Incoming) → IsTurn incoming turn
            → IfErr result (λ e. StopsEntering G.is_known G.synced G.unsynced e incoming
            self.old self.new (W.is_known sink.old) (W.written sink.old) (W.written sink.new)) }
        ensures kinds { result ≢ Err (HostFault.Link LinkFault.Unreadable) }
        // The turn is given back.
        ensures kept { IfOk result (λ again. (again.bodies ≡ turn.bodies) × (again.requests.items ≡ turn.requests.items)) }
        // The messages at hand are those of its bodies.
        ensures frames { turn.bodies ≢ [] → OnOk result (AreFramesOf turn.bodies self.new.decider.frames.items) }
        ensures told { (most : ℕ) → length turn.bodies ≤ most → OnOk result (Watched (Grows G.is_known G.synced G.unsynced self.old.log self.new.log)
            most N.hears watch.old self.old.decider.tally watch.new self.new.decider.tally) }
        ensures told_before { (most : ℕ) → length turn.bodies ≤ most → IfErr result (λ e. WatchedSoFar (LogAfter G.is_known G.synced G.unsynced e self.old.log self.new.log)
            most N.hears watch.old self.old.decider.tally watch.new) }
    {
        if turn.bodies.is_empty() {
            return self.answer_requests(turn, writer, sink);
        }
        self.enter_bodies(rt, alloc, turn, writer, sink, decision, watch)
    }

    // Waits for frames, and serves those that have come. Returns false at the link's end.
    fn serve_next<T: Threads + Sync, R: Source, W: Sink, F: Decide + Sync, N: Watch>(
        &mut self,
        rt: &T,
        alloc: Global,
        link: &mut Link,
        source: &mut R,
        sink: &mut W,
        decision: &F,
        most: MaxBatch,
        watch: &mut N,
    ) -> Result<bool, HostFault>
        ensures source { Reads R.is_known R.has_failed R.may_fail source.old source.new (of_link result) }
        ensures sink { Writes W.is_known W.has_failed W.may_fail sink.old sink.new (of_link result) }
        ensures next { result ≡ Ok true → EntersNext G.is_known G.synced G.unsynced self.old self.new
            (R.is_known source.old) (ahead link.old.reader (R.remaining source.old)) (ahead link.new.reader (R.remaining source.new))
            (W.is_known sink.old) (W.written sink.old) (W.written sink.new) }
        ensures end { result ≡ Ok false → (self.new ≡ self.old) × (sink.new ≡ sink.old)
            × (R.is_known source.old → ahead link.old.reader (R.remaining source.old) ≡ []) }
        ensures err { IfErr result (λ e. ((self.new ≡ self.old) × (sink.new ≡ sink.old)
            × StopsReading e (R.is_known source.old) (ahead link.old.reader (R.remaining source.old)))
            ⊎ StopsInEntry G.is_known G.synced G.unsynced e self.old self.new
            (R.is_known source.old) (ahead link.old.reader (R.remaining source.old))
            (W.is_known sink.old) (W.written sink.old) (W.written sink.new)) }
        ensures told { result ≡ Ok true → Watched (Grows G.is_known G.synced G.unsynced self.old.log self.new.log)
            most N.hears watch.old self.old.decider.tally watch.new self.new.decider.tally }
        ensures untold { result ≡ Ok false → watch.new ≡ watch.old }
        ensures told_before { IfErr result (λ e. WatchedSoFar (LogAfter G.is_known G.synced G.unsynced e self.old.log self.new.log)
            most N.hears watch.old self.old.decider.tally watch.new) }
    {
        let count = link.reader.next(source, most.count())?;
        if count == 0 {
            return Ok(false);
        }
        take_turn(&mut link.turn, link.reader.frames(), count)?;
        let turn = mem::replace(&mut link.turn, Turn::new(alloc));
        link.turn = self.enter(rt, alloc, turn, &mut link.writer, sink, decision, watch)?;
        Ok(true)
    }

    /// Serves a link until it ends, or to the first fault: the bodies that have come become one entry of the log, whose messages are
    /// decided on the book, one after another, by any local decision; once the entry is synced, their replies are written. A body that is
    /// no message stands in the log, too, and gets no reply. Network management (ISO 8583:1993, 1804) is answered by the link itself, 1814
    /// with action 800, at its place among the replies: it stands in no entry, and changes nothing. At most so many frames are served in one
    /// turn, and the watch is told of each entry once it is synced. What a batch costs doesn't grow with the book or the log.
    pub fn serve_link<T: Threads + Sync, R: Source, W: Sink, F: Decide + Sync, N: Watch>(
        &mut self,
        rt: &T,
        alloc: Global,
        source: &mut R,
        sink: &mut W,
        decision: &F,
        most: MaxBatch,
        watch: &mut N,
    ) -> Result<(), HostFault>
        // It says that the link can't be read exactly where a call of the source failed.
        ensures source { Reads R.is_known R.has_failed R.may_fail source.old source.new (of_link result) }
        // It says that a reply can't be written exactly where a call of the sink failed.
        ensures sink { Writes W.is_known W.has_failed W.may_fail sink.old sink.new (of_link result) }
        // Where no fault is met, all frames of the link were served.
        ensures ok { OnOk result (Served G.is_known G.synced G.unsynced self.old self.new
            (R.is_known source.old) (R.remaining source.old) [] (W.is_known sink.old) (W.written sink.old) (W.written sink.new)) }
        // After a fault nothing was answered that isn't in the log.
        ensures stopped { IfErr result (λ e. Stopped G.is_known G.synced G.unsynced e self.old self.new
            (R.is_known source.old) (R.remaining source.old) (W.is_known sink.old) (W.written sink.old) (W.written sink.new)) }
        // The watch was told of each entry that the log has more.
        ensures told { OnOk result (Watched (Grows G.is_known G.synced G.unsynced self.old.log self.new.log)
            most N.hears watch.old self.old.decider.tally watch.new self.new.decider.tally) }
        // After a fault it was told of those that are synced.
        ensures told_before { IfErr result (λ e. WatchedSoFar (LogAfter G.is_known G.synced G.unsynced e self.old.log self.new.log)
            most N.hears watch.old self.old.decider.tally watch.new) }
    {
        let mut link = Link::new(alloc)?;
        for _ in 0..u64::MAX {
            if !self.serve_next(rt, alloc, &mut link, source, sink, decision, most, watch)? {
                return Ok(());
            }
        }
        // No disk can hold so many entries.
        Err(HostFault::OutOfMemory)
    }
}
