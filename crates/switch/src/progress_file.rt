use crate::progress::Progress;
use crate::reading::Reading;
use file_devices::{Broken, Source};

/// A file that tells how far it is read.
#[derive(Drop)]
pub(crate) struct ProgressFile<S, P> {
    source: S,
    reading: Reading<P>,
    // How many bytes were read. It stays at 2^64 - 1 once it is there.
    read: u64,
}

impl<S: Source, P: Progress> ProgressFile<S, P> {
    ghost use Rattle.std.specs.Prelude.{◌≡◌};

    /// A file of this name, of which nothing is read yet. Without a place to tell it, nothing is told.
    pub(crate) fn new(source: S, progress: Option<P>, name: &str) -> ProgressFile<S, P>
        ensures source { result.source ≡ source }
    {
        ProgressFile {
            source,
            reading: Reading::new(progress, name),
            read: 0,
        }
    }
}

impl<S: Source, P: Progress> Source for ProgressFile<S, P> {
    ghost is_known = { λ file. S.is_known file.source };

    ghost remaining = { λ file. S.remaining file.source };

    ghost has_failed = { λ file. S.has_failed file.source };

    ghost may_fail = { λ file. S.may_fail file.source };

    fn take(&mut self, buffer: &mut [u8]) -> Result<usize, Broken> {
        let taken = self.source.take(buffer);
        if let Ok(count) = taken {
            self.read = self.read.saturating_add(count as u64);
            self.reading.has_read(self.read);
        }
        taken
    }
}
