ghost use Rattle.std.specs.Prelude.{◌≡◌, ℕ, ◌+◌, ◌<◌, ◌≤◌, ◌^◌, ◌++◌, List, [], length, take, drop, IfOk, OnErr};

use file_devices::Broken;

/// A log that is locked until it is dropped, so that it stays as it is while it is read. Every call can fail.
pub trait LockedLog {
    // Whether it is known which bytes it has.
    ghost is_known: { Self → Type 0 };
    // The bytes, where they are known.
    ghost bytes: { Self → List ℕ };
    // A call may fail.
    ghost may_fail: { Self → Type 0 };

    /// Reads bytes from this place on into the buffer, and returns how many; 0 for a buffer that isn't empty is the end.
    fn read_at(&self, at: u64, buffer: &mut [u8]) -> Result<usize, Broken>
        ensures count { IfOk result (λ n. n ≤ length buffer.new) }
        ensures place { IfOk result (λ n. at + n < 2 ^ 64) }
        ensures device { OnErr result (may_fail self.now) }
        ensures bytes { IfOk result (λ n. is_known self.now → drop at (bytes self.now) ≡ take n buffer.new ++ drop (at + n) (bytes self.now)) }
        ensures end { IfOk result (λ n. is_known self.now → n ≡ 0 → 0 < length buffer.new → drop at (bytes self.now) ≡ []) };
}
