ghost use Rattle.std.specs.Prelude.{◌≡◌, drop, false};

use crate::locked_log::LockedLog;
use file_devices::{Broken, Source};

/// The bytes of a log that is locked, from the first one on.
#[derive(Drop)]
pub struct LockedInput<'a, L> {
    log: &'a L,
    at: u64,
    has_failed: bool,
}

impl<'a, L: LockedLog> LockedInput<'a, L> {
    /// All that this log has. No call has failed yet.
    pub fn new(log: &'a L) -> LockedInput<'a, L>
        ensures log { result.log.now ≡ log.now }
        ensures at { result.at ≡ 0 }
        ensures fresh { result.has_failed ≡ false }
    {
        LockedInput {
            log,
            at: 0,
            has_failed: false,
        }
    }
}

impl<L: LockedLog> Source for LockedInput<'_, L> {
    ghost is_known = { λ input. L.is_known input.log.now };

    ghost remaining = { λ input. drop input.at (L.bytes input.log.now) };

    ghost has_failed = { λ input. input.has_failed };

    ghost may_fail = { λ input. L.may_fail input.log.now };

    fn take(&mut self, buffer: &mut [u8]) -> Result<usize, Broken> {
        let Ok(count) = self.log.read_at(self.at, buffer) else {
            self.has_failed = true;
            return Err(Broken);
        };
        self.at += count as u64;
        Ok(count)
    }
}
