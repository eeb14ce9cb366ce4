ghost use Rattle.std.specs.Prelude.{◌≡◌, ℕ, ◌<◌, ◌≤◌, ◌++◌, List, [], Bool, false, length, take, IfOk, OnErr, IsSome, IsTrue};
ghost use Rattle.file_devices.specs.Devices.{known_bytes, failed_after_take};

use crate::broken::Broken;
use std::io::Read;

/// Bytes that come in pieces, by calls that can fail.
pub trait Source {
    // Whether it is known which bytes are still to come.
    ghost is_known: { Self → Type 0 };
    // The bytes that are still to come, where they are known.
    ghost remaining: { Self → List ℕ };
    // Whether a call has failed.
    ghost has_failed: { Self → Bool };
    // A call may fail.
    ghost may_fail: { Self → Type 0 };

    /// Takes the next bytes into the buffer, and returns how many; 0 for a buffer that isn't empty is the end.
    fn take(&mut self, buffer: &mut [u8]) -> Result<usize, Broken>
        ensures count { IfOk result (λ n. n ≤ length buffer.new) }
        ensures failed { has_failed self.new ≡ failed_after_take result (has_failed self.old) }
        ensures device { IsTrue (failed_after_take result false) → may_fail self.old }
        ensures may { may_fail self.new → may_fail self.old }
        ensures known { is_known self.old → is_known self.new }
        ensures bytes { IfOk result (λ n. is_known self.old → remaining self.old ≡ take n buffer.new ++ remaining self.new) }
        ensures end { IfOk result (λ n. is_known self.old → n ≡ 0 → 0 < length buffer.new → remaining self.old ≡ []) }
        ensures kept { OnErr result (is_known self.old → remaining self.new ≡ remaining self.old) };
}

impl Source for &[u8] {
    ghost is_known = { λ _. Unit {0} };

    ghost remaining = { λ source. source.now };

    ghost has_failed = { λ _. false };

    ghost may_fail = { λ _. ⊥ };

    fn take(&mut self, buffer: &mut [u8]) -> Result<usize, Broken> {
        let count = self.len().min(buffer.len());
        let (front, rest) = self.split_at(count);
        buffer[..count].copy_from_slice(front);
        *self = rest;
        Ok(count)
    }
}

/// The bytes that a reader gives. A call of `read` that fails is a failure.
#[derive(Drop)]
pub struct FromRead<R> {
    reader: R,
    has_failed: bool,
}

impl<R: Read> FromRead<R> {
    /// A source over this reader. No call has failed yet.
    pub fn new(reader: R) -> FromRead<R>
        ensures reader { result.reader ≡ reader }
        ensures fresh { result.has_failed ≡ false }
    {
        FromRead {
            reader,
            has_failed: false,
        }
    }
}

impl<R: Read> Source for FromRead<R> {
    ghost is_known = { λ source. IsSome (R.remaining source.reader) };

    ghost remaining = { λ source. known_bytes (R.remaining source.reader) };

    ghost has_failed = { λ source. source.has_failed };

    ghost may_fail = { λ _. Unit {0} };

    fn take(&mut self, buffer: &mut [u8]) -> Result<usize, Broken> {
        match self.reader.read(buffer) {
            Ok(count) => Ok(count),
            Err(_) => {
                self.has_failed = true;
                Err(Broken)
            }
        }
    }
}
