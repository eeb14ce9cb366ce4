/// The names of the files of a batch: what is read, and what is written.
#[derive(Debug, Drop)]
pub struct BatchNames {
    /// The book that the batch is decided on.
    pub book: String,
    /// The batch.
    pub batch: String,
    /// Its replies.
    pub replies: String,
    /// The book after the batch.
    pub new_book: String,
}
