ghost use Rattle.std.specs.Prelude.{◌<◌, length};

use crate::last::Last;
use crate::link::{InOrder, Link};
use crate::signals::Signals;
use crate::waiting::hand_over;
use file_devices::Source;
use rtrb::Producer;
use std::alloc::Global;
use std::sync::{Arc, Wait};

/// What the thread has that reads a link.
#[derive(Drop)]
pub struct Reading<L: Link> {
    pub(crate) outbound: Producer<u8, Global, InOrder<L>>,
    pub(crate) ends: Producer<Last, Global, InOrder<L>>,
    pub(crate) signals: Arc<Signals, Global>,
    // Memory for what one call of the source gives.
    pub(crate) buffer: Vec<u8>,
    // How many bytes it gave, up to 2^64 - 1.
    pub(crate) count: u64,
    ghost room: { 0 < length buffer.items },
}

impl<L: Link> Reading<L> {
    ghost use Rattle.std.specs.Prelude.{◌≡◌, ◌-◌, ◌^◌, [], min, length, true, false, IsTrue, IsFalse};
    ghost use Rattle.rtrb.specs.Ring.{sent};
    ghost use Rattle.link_frames.specs.Ahead.{IsBehind, HasReadNone};

    /// Reads the link of this source and hands its bytes over, up to its end or the first call that fails, or until no more are wanted.
    /// Returns whether it read: it doesn't where no thread was waited for any longer.
    pub fn work<W: Wait, S: Source>(&mut self, rt: &W, source: &mut S) -> bool
        requires none { HasReadNone self.old }
        requires link { IsBehind S.is_known S.remaining S.may_fail L.is_known L.bytes L.may_fail [] source.old }
        ensures none { IsFalse result → source.new ≡ source.old }
        ensures known { S.is_known source.old → S.is_known source.new }
        ensures may { S.may_fail source.new → S.may_fail source.old }
    {
        if !self.signals.claim() {
            return false;
        }
        for _ in rt.forever() {
            if !self.read_next(rt, source) {
                return true;
            }
        }
        unreachable!()
    }

    // Reads the next bytes and hands them over, or the last word. Returns false where no more are to be read.
    fn read_next<W: Wait, S: Source>(&mut self, rt: &W, source: &mut S) -> bool
        requires behind { IsBehind S.is_known S.remaining S.may_fail L.is_known L.bytes L.may_fail (sent self.old.outbound) source.old }
        requires counted { self.old.count ≡ min (length (sent self.old.outbound)) (2 ^ 64 - 1) }
        ensures behind { IsTrue result → IsBehind S.is_known S.remaining S.may_fail L.is_known L.bytes L.may_fail (sent self.new.outbound) source.new }
        ensures counted { IsTrue result → self.new.count ≡ min (length (sent self.new.outbound)) (2 ^ 64 - 1) }
        ensures known { S.is_known source.old → S.is_known source.new }
        ensures may { S.may_fail source.new → S.may_fail source.old }
    {
        match source.take(self.buffer.as_mut_slice()) {
            Ok(0) => self.end(false),
            Ok(count) => {
                let next = &self.buffer[..count];
                self.count = self.count.saturating_add(count as u64);
                return hand_over(rt, &mut self.outbound, next, &self.signals);
            }
            Err(_) => self.end(true),
        }
        false
    }

    // Says the last word.
    fn end(&mut self, has_failed: bool)
        requires ended { has_failed ≡ false → L.is_known → L.bytes ≡ sent self.old.outbound }
        requires counted { self.old.count ≡ min (length (sent self.old.outbound)) (2 ^ 64 - 1) }
        requires failed { has_failed ≡ true → L.may_fail }
    {
        let count = self.count;
        let _ = self.ends.push(Last { count, has_failed });
        self.signals.came.unpark();
    }
}
