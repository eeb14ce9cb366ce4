use file_batch::BodyCount;

/// What a log came to, written to files that aren't yet in their places.
#[derive(Drop)]
pub(crate) struct WrittenLog<O> {
    /// How many messages the log has, and how many bodies of them are none.
    pub(crate) count: BodyCount,
    /// How many bytes its torn tail has.
    pub(crate) torn: u64,
    /// The replies.
    pub(crate) replies: O,
    /// The book after the log.
    pub(crate) new_book: O,
}
