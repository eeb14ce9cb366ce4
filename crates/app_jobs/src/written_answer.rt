use file_batch::BodyCount;

/// What a batch came to, written to files that aren't yet in their places.
#[derive(Drop)]
pub(crate) struct WrittenAnswer<O> {
    /// How many bodies the batch has, and how many of them are no message.
    pub(crate) count: BodyCount,
    /// Their replies.
    pub(crate) replies: O,
    /// The book after them.
    pub(crate) new_book: O,
}
