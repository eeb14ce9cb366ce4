ghost use Rattle.std.specs.Prelude.{◌≡◌, ◌-◌, ◌^◌, min, length};
ghost use Rattle.rtrb.specs.Ring.{received};

use crate::last::Last;
use crate::link::{InOrder, Link};
use crate::signals::Signals;
use file_devices::{Broken, Source};
use rtrb::Consumer;
use std::alloc::Global;
use std::sync::{Arc, Wait};

/// A link that a thread of its own reads ahead, up to 1 MiB: a source of the bytes that have come. One call takes all that are there, over
/// any number of calls of the link's own source, as far as the buffer goes, and waits only where none is.
#[derive(Drop)]
pub struct Ahead<R, L: Link> {
    rt: R,
    pub(crate) inbound: Consumer<u8, Global, InOrder<L>>,
    ends: Consumer<Last, Global, InOrder<L>>,
    signals: Arc<Signals, Global>,
    // How many bytes were taken, up to 2^64 - 1.
    count: u64,
    last: Option<Last>,
    has_failed: bool,
    ghost counted: { count ≡ min (length (received inbound)) (2 ^ 64 - 1) },
}

impl<R, L: Link> Ahead<R, L> {
    ghost use Rattle.std.specs.Prelude.{◌≡◌, ◌≤◌, ◌<◌, ◌++◌, [], length, take, Some, IfSome};
    ghost use Rattle.rtrb.specs.Ring.{received};
    ghost use Rattle.file_devices.specs.Appending.{Begins};
    ghost use Rattle.link_frames.specs.Ahead.{most, FitsEnd, MayFail, IsFresh};

    /// A link of which no byte was taken, read by this thread.
    pub(crate) fn new(
        rt: R,
        inbound: Consumer<u8, Global, InOrder<L>>,
        ends: Consumer<Last, Global, InOrder<L>>,
        signals: Arc<Signals, Global>,
    ) -> Ahead<R, L>
        requires { received inbound ≡ [] }
        ensures { IsFresh result }
    {
        Ahead {
            rt,
            inbound,
            ends,
            signals,
            count: 0,
            last: None,
            has_failed: false,
        }
    }

    // Takes the bytes that are there, as far as the buffer goes.
    fn take_those_there(&mut self, buffer: &mut [u8]) -> usize
        ensures within { result ≤ length buffer.old }
        ensures size { length buffer.new ≡ length buffer.old }
        ensures received { received self.new.inbound ≡ received self.old.inbound ++ take result buffer.new }
        ensures beginning { L.is_known → Begins (received self.old.inbound) L.bytes → Begins (received self.new.inbound) L.bytes }
        ensures kept { (self.new.has_failed ≡ self.old.has_failed) × (self.new.last ≡ self.old.last) }
    {
        let count = self.inbound.pop_partial_slice(buffer);
        self.count = self.count.saturating_add(count as u64);
        self.signals.room.unpark();
        count
    }

    // Takes what the source said, once it has.
    fn listen(&mut self)
        ensures end { L.is_known → FitsEnd L.bytes self.old.last → FitsEnd L.bytes self.new.last }
        ensures may { MayFail L.may_fail self.new.last → MayFail L.may_fail self.old.last }
        ensures kept { (self.new.inbound ≡ self.old.inbound) × (self.new.count ≡ self.old.count) × (self.new.has_failed ≡ self.old.has_failed) }
    {
        if self.last.is_none() {
            if let Ok(last) = self.ends.pop() {
                self.last = Some(last);
            }
        }
    }

    // What the source said, where all bytes that it gave were taken.
    fn last_word(&mut self) -> Option<Last>
        ensures last { IfSome result (λ last. (self.new.last ≡ Some last) × (last.count ≡ self.new.count) × (last.count < most)) }
        ensures end { L.is_known → FitsEnd L.bytes self.old.last → FitsEnd L.bytes self.new.last }
        ensures may { MayFail L.may_fail self.new.last → MayFail L.may_fail self.old.last }
        ensures kept { (self.new.inbound ≡ self.old.inbound) × (self.new.has_failed ≡ self.old.has_failed) }
    {
        self.listen();
        let last = self.last?;
        if last.count == self.count && last.count < u64::MAX {
            Some(last)
        } else {
            None
        }
    }
}

impl<R: Wait + Copy, L: Link> Source for Ahead<R, L> {
    ghost use Rattle.std.specs.Prelude.{length, drop};
    ghost use Rattle.rtrb.specs.Ring.{received};
    ghost use Rattle.link_frames.specs.Ahead.{MayFail, IsReadAhead};

    ghost is_known = { λ ahead. IsReadAhead L.is_known L.bytes (received ahead.inbound) ahead.last };

    ghost remaining = { λ ahead. drop (length (received ahead.inbound)) L.bytes };

    ghost has_failed = { λ ahead. ahead.has_failed };

    ghost may_fail = { λ ahead. MayFail L.may_fail ahead.last };

    fn take(&mut self, buffer: &mut [u8]) -> Result<usize, Broken> {
        let rt = self.rt;
        for _ in rt.forever() {
            let count = self.take_those_there(buffer);
            if count > 0 || buffer.is_empty() {
                return Ok(count);
            }
            match self.last_word() {
                Some(last) if last.has_failed => {
                    self.has_failed = true;
                    return Err(Broken);
                }
                Some(_) => return Ok(0),
                None => self.signals.came.park(&rt),
            }
        }
        unreachable!()
    }
}
