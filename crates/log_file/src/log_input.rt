ghost use Rattle.std.specs.Prelude.{◌≡◌, ◌++◌, drop, false};

use crate::growing_file::GrowingFile;
use file_devices::{Broken, Source};

/// The bytes of a file that grows, from the first one on. The file stays as it is.
#[derive(Drop)]
pub struct LogInput<'a, G> {
    file: &'a G,
    at: u64,
    has_failed: bool,
}

impl<'a, G: GrowingFile> LogInput<'a, G> {
    /// All that this file has. No call has failed yet.
    pub fn new(file: &'a G) -> LogInput<'a, G>
        ensures file { result.file.now ≡ file.now }
        ensures at { result.at ≡ 0 }
        ensures fresh { result.has_failed ≡ false }
    {
        LogInput {
            file,
            at: 0,
            has_failed: false,
        }
    }
}

impl<G: GrowingFile> Source for LogInput<'_, G> {
    ghost is_known = { λ input. G.is_known input.file.now };

    ghost remaining = { λ input. drop input.at (G.synced input.file.now ++ G.unsynced input.file.now) };

    ghost has_failed = { λ input. input.has_failed };

    ghost may_fail = { λ input. G.may_fail input.file.now };

    fn take(&mut self, buffer: &mut [u8]) -> Result<usize, Broken> {
        let Ok(count) = self.file.read_at(self.at, buffer) else {
            self.has_failed = true;
            return Err(Broken);
        };
        self.at += count as u64;
        Ok(count)
    }
}
