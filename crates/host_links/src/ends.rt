//! The two ends of a link, which the link's own thread opens, and closes behind the last call.

ghost use Rattle.std.specs.Prelude.{◌≡◌};

use file_devices::{Broken, FailingSink, FailingSource, Sink, Source};

/// Where the bytes of a link come from.
pub trait LinkSource: Source {
    /// Opens it before the first call. It may wait for whoever sends, and it can fail.
    fn open(&mut self) -> Result<(), Broken>
        ensures known { Self.is_known self.old → Self.is_known self.new }
        ensures bytes { Self.is_known self.old → Self.remaining self.new ≡ Self.remaining self.old };

    /// Closes it: nothing is read any more.
    fn close(&mut self);
}

/// What a link is answered on.
pub trait LinkSink: Sink {
    /// Opens it before the first call. It may wait for whoever reads, and it can fail.
    fn open(&mut self) -> Result<(), Broken>
        ensures known { Self.is_known self.old → Self.is_known self.new }
        ensures bytes { Self.is_known self.old → Self.written self.new ≡ Self.written self.old };

    /// Closes it: whoever reads sees the end.
    fn close(&mut self)
        ensures known { Self.is_known self.old → Self.is_known self.new }
        ensures bytes { Self.is_known self.old → Self.written self.new ≡ Self.written self.old };
}

/// Bytes in memory are open from the first on.
impl LinkSource for &[u8] {
    fn open(&mut self) -> Result<(), Broken> {
        Ok(())
    }

    fn close(&mut self) {}
}

impl LinkSource for FailingSource<'_> {
    fn open(&mut self) -> Result<(), Broken> {
        Ok(())
    }

    fn close(&mut self) {}
}

impl LinkSink for FailingSink {
    fn open(&mut self) -> Result<(), Broken> {
        Ok(())
    }

    fn close(&mut self) {}
}
