ghost use Rattle.std.specs.Prelude.{◌≡◌, ◌≤◌, false, drop, length};

use crate::broken::Broken;
use crate::source::Source;

/// A file in memory that is read. No call fails.
#[derive(Drop)]
pub struct MemoryInput {
    bytes: Vec<u8>,
    at: usize,
    ghost within: { at ≤ length bytes.items },
}

impl MemoryInput {
    /// These bytes, from the first one.
    pub fn new(bytes: Vec<u8>) -> MemoryInput
        ensures bytes { result.bytes ≡ bytes }
        ensures at { result.at ≡ 0 }
    {
        MemoryInput { bytes, at: 0 }
    }
}

impl Source for MemoryInput {
    ghost is_known = { λ _. Unit {0} };

    ghost remaining = { λ input. drop input.at input.bytes.items };

    ghost has_failed = { λ _. false };

    ghost may_fail = { λ _. ⊥ };

    fn take(&mut self, buffer: &mut [u8]) -> Result<usize, Broken> {
        let (_, rest) = self.bytes.split_at(self.at);
        let count = rest.len().min(buffer.len());
        let (front, _) = rest.split_at(count);
        buffer[..count].copy_from_slice(front);
        self.at += count;
        Ok(count)
    }
}
