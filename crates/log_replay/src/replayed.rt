use file_batch::BodyCount;
use issuer_rows::Book;

/// What the messages of a log came to.
#[derive(Drop)]
pub struct Replayed {
    /// How many bodies were decided, and how many of them are no message.
    pub count: BodyCount,
    /// The book after them.
    pub book: Book,
}
