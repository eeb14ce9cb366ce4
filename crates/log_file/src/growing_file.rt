ghost use Rattle.std.specs.Prelude.{◌≡◌, ℕ, ◌+◌, ◌<◌, ◌≤◌, ◌^◌, ◌++◌, List, [], Bool, false, length, take, drop, IfOk, OnOk, OnErr, IsTrue};
ghost use Rattle.file_devices.specs.Devices.{failed_after_put};
ghost use Rattle.log_file.specs.Growing.{AddsPart, Begins, failed_after_call};

use file_devices::Broken;

/// A file that only grows, but for being cut once where a crash tore its end. Every call can fail. A crash keeps the bytes that were
/// synced; of those behind them it may keep some, or leave others in their place.
pub trait GrowingFile {
    // Whether it is known what the file has.
    ghost is_known: { Self → Type 0 };
    // The bytes that a crash keeps, where they are known.
    ghost synced: { Self → List ℕ };
    // The bytes behind them, which weren't synced.
    ghost unsynced: { Self → List ℕ };
    // Whether a call that writes has failed. One that writes no byte counts as one.
    ghost has_failed: { Self → Bool };
    // A call may fail.
    ghost may_fail: { Self → Type 0 };

    /// Reads bytes from this place on into the buffer, and returns how many; 0 for a buffer that isn't empty is the end.
    fn read_at(&self, at: u64, buffer: &mut [u8]) -> Result<usize, Broken>
        ensures count { IfOk result (λ n. n ≤ length buffer.new) }
        ensures place { IfOk result (λ n. at + n < 2 ^ 64) }
        ensures device { OnErr result (may_fail self.now) }
        ensures bytes { IfOk result (λ n. is_known self.now
            → drop at (synced self.now ++ unsynced self.now) ≡ take n buffer.new ++ drop (at + n) (synced self.now ++ unsynced self.now)) }
        ensures end { IfOk result (λ n. is_known self.now → n ≡ 0 → 0 < length buffer.new → drop at (synced self.now ++ unsynced self.now) ≡ []) };

    /// Writes a first part of the bytes behind all that the file has, and returns how many they are. That it writes none is a failure.
    /// After a failure some of them may stand there.
    fn put(&mut self, bytes: &[u8]) -> Result<usize, Broken>
        ensures count { IfOk result (λ n. n ≤ length bytes.now) }
        ensures failed { has_failed self.new ≡ failed_after_put result (has_failed self.old) }
        ensures device { IsTrue (failed_after_put result false) → may_fail self.old }
        ensures may { may_fail self.new → may_fail self.old }
        ensures known { is_known self.old → is_known self.new }
        ensures synced { is_known self.old → synced self.new ≡ synced self.old }
        ensures bytes { IfOk result (λ n. is_known self.old → unsynced self.new ≡ unsynced self.old ++ take n bytes.now) }
        ensures part { OnErr result (is_known self.old → AddsPart (unsynced self.old) (unsynced self.new) bytes.now) };

    /// Returns when a crash keeps all that the file has. After a failure it is not known how much a crash keeps; no less than before.
    fn sync(&mut self) -> Result<(), Broken>
        ensures failed { has_failed self.new ≡ failed_after_call result (has_failed self.old) }
        ensures device { OnErr result (may_fail self.old) }
        ensures may { may_fail self.new → may_fail self.old }
        ensures known { is_known self.old → is_known self.new }
        ensures bytes { is_known self.old → synced self.new ++ unsynced self.new ≡ synced self.old ++ unsynced self.old }
        ensures synced { is_known self.old → Begins (synced self.old) (synced self.new) }
        ensures all { OnOk result (is_known self.old → unsynced self.new ≡ []) };

    /// Cuts the file to so many bytes, of no more than it has. These stay, also where the call fails.
    fn cut(&mut self, size: u64) -> Result<(), Broken>
        requires { is_known self.old → size ≤ length (synced self.old ++ unsynced self.old) }
        ensures failed { has_failed self.new ≡ failed_after_call result (has_failed self.old) }
        ensures device { OnErr result (may_fail self.old) }
        ensures may { may_fail self.new → may_fail self.old }
        ensures known { is_known self.old → is_known self.new }
        ensures bytes { OnOk result (is_known self.old → synced self.new ++ unsynced self.new ≡ take size (synced self.old ++ unsynced self.old)) }
        ensures kept { is_known self.old → Begins (take size (synced self.old ++ unsynced self.old)) (synced self.new ++ unsynced self.new) };
}
