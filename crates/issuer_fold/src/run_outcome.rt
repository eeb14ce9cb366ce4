use issuer_rows::{Book, ReplyBody};

/// What a run came to.
#[derive(Drop)]
pub struct RunOutcome {
    /// The replies, one for each body, in the order of arrival.
    pub replies: Vec<ReplyBody>,
    /// The book after all bodies.
    pub book: Book,
    /// How many threads took part, the caller's among them.
    pub started: u32,
    /// How many bodies were committed before the rest was decided one after another.
    pub committed: u32,
}
