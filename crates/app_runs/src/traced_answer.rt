use file_batch::BodyCount;

/// What a batch came to, with the journal of the run, written to files that aren't yet in their places.
#[derive(Drop)]
pub(crate) struct TracedAnswer<O> {
    /// How many bodies the batch has, and how many of them are no message.
    pub(crate) count: BodyCount,
    /// Their replies.
    pub(crate) replies: O,
    /// The run's journal.
    pub(crate) journal: O,
    /// The book after the messages.
    pub(crate) new_book: O,
}
