ghost use Rattle.std.specs.Prelude.{◌≡◌, ℕ, ◌≤◌, ◌++◌, List, Bool, false, length, take, IfOk, OnErr, IsSome, IsTrue};
ghost use Rattle.file_devices.specs.Devices.{known_bytes, failed_after_put};

use crate::broken::Broken;
use std::io::Write;

/// What bytes are written to, by calls that can fail.
pub trait Sink {
    // Whether it is known which bytes were written.
    ghost is_known: { Self → Type 0 };
    // The bytes that were written, where they are known.
    ghost written: { Self → List ℕ };
    // Whether a call has failed. One that writes no byte counts as one.
    ghost has_failed: { Self → Bool };
    // A call may fail.
    ghost may_fail: { Self → Type 0 };

    /// Writes a first part of the bytes, and returns how many they are. That it writes none is a failure.
    fn put(&mut self, bytes: &[u8]) -> Result<usize, Broken>
        ensures count { IfOk result (λ n. n ≤ length bytes.now) }
        ensures failed { has_failed self.new ≡ failed_after_put result (has_failed self.old) }
        ensures device { IsTrue (failed_after_put result false) → may_fail self.old }
        ensures may { may_fail self.new → may_fail self.old }
        ensures known { is_known self.old → is_known self.new }
        ensures bytes { IfOk result (λ n. is_known self.old → written self.new ≡ written self.old ++ take n bytes.now) }
        ensures kept { OnErr result (is_known self.old → written self.new ≡ written self.old) };
}

/// The bytes that a writer is given. A call of `write` that fails, or writes no byte, is a failure.
#[derive(Drop)]
pub struct IntoWrite<W> {
    writer: W,
    has_failed: bool,
}

impl<W: Write> IntoWrite<W> {
    /// A sink over this writer. No call has failed yet.
    pub fn new(writer: W) -> IntoWrite<W>
        ensures writer { result.writer ≡ writer }
        ensures fresh { result.has_failed ≡ false }
    {
        IntoWrite {
            writer,
            has_failed: false,
        }
    }

    /// The writer, whatever failed.
    pub fn into_writer(self) -> W
        ensures { result ≡ self.writer }
    {
        self.writer
    }

    /// The writer.
    pub fn writer(&self) -> &W
        ensures { result.now ≡ self.now.writer }
    {
        &self.writer
    }
}

impl<W: Write> Sink for IntoWrite<W> {
    ghost is_known = { λ sink. IsSome (W.contents sink.writer) };

    ghost written = { λ sink. known_bytes (W.contents sink.writer) };

    ghost has_failed = { λ sink. sink.has_failed };

    ghost may_fail = { λ _. Unit {0} };

    fn put(&mut self, bytes: &[u8]) -> Result<usize, Broken> {
        match self.writer.write(bytes) {
            Ok(0) => {
                self.has_failed = true;
                Ok(0)
            }
            Ok(count) => Ok(count),
            Err(_) => {
                self.has_failed = true;
                Err(Broken)
            }
        }
    }
}
