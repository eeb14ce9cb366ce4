ghost use Rattle.std.specs.Prelude.{◌≡◌, [], false};
ghost use Rattle.std.specs.FinMap as map;

use issuer_rows::{Book, ReplyBody};
use std::alloc::{AllocError, Global};

// How many new rows a message writes at most: its original's and its day's.
pub(crate) const NEW_ROWS: usize = 2;

/// A part of a batch, decided over the opening book.
#[derive(Drop)]
pub(crate) struct DecidedPart {
    /// The replies to its messages, in their order.
    pub(crate) replies: Vec<ReplyBody>,
    /// The rows that its messages wrote.
    pub(crate) rows: Book,
    /// Whether all its messages are decided. They are not where memory ran out.
    pub(crate) is_whole: bool,
}

impl DecidedPart {
    /// A part of which no message is decided yet.
    pub(crate) fn new(alloc: Global) -> DecidedPart
        ensures replies { result.replies.items ≡ [] }
        ensures rows { result.rows ≡ map.empty }
        ensures whole { result.is_whole ≡ false }
    {
        DecidedPart {
            replies: Vec::new(alloc),
            rows: Book::new(alloc),
            is_whole: false,
        }
    }

    /// Makes room for so many messages. It fails only where memory runs out; what is decided is the same either way.
    pub(crate) fn make_room(&mut self, messages: usize) -> Result<(), AllocError>
        ensures replies { self.new.replies.items ≡ self.old.replies.items }
        ensures rows { self.new.rows ≡ self.old.rows }
    {
        self.rows.reserve(messages.saturating_mul(NEW_ROWS))?;
        self.replies.reserve(messages)?;
        Ok(())
    }
}
