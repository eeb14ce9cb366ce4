use issuer_rows::{Book, CardPlaces, Frame, Places};
use std::alloc::{AllocError, Global};

// How many rows a book has at most for each message of a part, so that finding its cards' rows at once is worth it.
const FEW_ROWS: usize = 8;

/// Where the rows of cards were found last: in the opening book, and among those that a part wrote. They are hints alone.
#[derive(Drop)]
pub(crate) struct CardHints {
    seen: CardPlaces,
    own: CardPlaces,
}

impl CardHints {
    /// The rows of the opening book's cards, if it has few for so many messages. No row is written yet, so those that are written have
    /// room alone. It fails only where memory runs out.
    pub(crate) fn new(
        alloc: Global,
        opening: &Book,
        messages: usize,
    ) -> Result<CardHints, AllocError> {
        let mut seen = CardPlaces::new(alloc);
        let mut own = CardPlaces::new(alloc);
        if opening.len() <= messages.saturating_mul(FEW_ROWS) {
            seen.find_all(opening)?;
            own.find_all(opening)?;
        }
        Ok(CardHints { seen, own })
    }

    /// Where the rows may stand that a message asks for: those of the opening book, and those that the part wrote.
    #[inline(always)]
    pub(crate) fn places_of(&self, frame: &Frame) -> (Places, Places) {
        (self.seen.places_of(frame), self.own.places_of(frame))
    }

    /// Notes where they stood.
    #[inline(always)]
    pub(crate) fn note(&mut self, frame: &Frame, seen: &Places, own: &Places) {
        self.seen.note(frame, seen);
        self.own.note(frame, own);
    }
}
