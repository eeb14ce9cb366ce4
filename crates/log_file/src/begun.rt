use crate::log_writer::LogWriter;

/// A log that was begun, or the file as it was where it holds something already.
#[derive(Drop)]
pub enum Begun<G> {
    /// The file had no log yet: it has the header now, which is synced.
    New(LogWriter<G>),
    /// The file has more than a header that was torn, and is as it was.
    Old(G),
}
