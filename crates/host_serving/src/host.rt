use crate::decider::Decider;
use log_file::{GrowingFile, LogWriter};

/// A live host: a book in memory, and the log of all that was decided on it.
#[derive(Drop)]
pub struct Host<G> {
    pub(crate) decider: Decider,
    pub(crate) log: LogWriter<G>,
}

impl<G: GrowingFile + Drop> Host<G> {
    ghost use Rattle.std.specs.Prelude.{◌≡◌};

    /// A host over the book that this decider has after the messages of this log.
    pub fn new(decider: Decider, log: LogWriter<G>) -> Host<G>
        ensures decider { result.decider ≡ decider }
        ensures log { result.log ≡ log }
    {
        Host { decider, log }
    }

    /// The book, and the replies to the messages that were decided last.
    pub fn decider(&self) -> &Decider
        ensures { result.now ≡ self.now.decider }
    {
        &self.decider
    }

    /// The log.
    pub fn log(&self) -> &LogWriter<G>
        ensures { result.now ≡ self.now.log }
    {
        &self.log
    }
}
