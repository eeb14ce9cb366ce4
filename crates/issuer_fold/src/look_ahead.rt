use issuer_rows::{Book, CardPlaces, Frame, Places};

// For how many bodies the rows are looked at at once.
const AHEAD: usize = 16;

/// Where the rows may stand that the next bodies ask for. They are looked at many at once, so that they are near when they are asked for.
/// It is a hint alone, as places are.
#[derive(Drop)]
pub struct LookAhead {
    places: [Places; AHEAD],
    // The index behind the last body whose rows were looked at.
    end: usize,
}

impl LookAhead {
    /// No row was looked at yet.
    pub fn new() -> LookAhead {
        LookAhead {
            places: [Places::new(); AHEAD],
            end: 0,
        }
    }

    /// Where the rows of a book may stand that the body at this index asks for. Unless they were looked at, they are now, with those of
    /// the bodies behind it.
    #[inline(always)]
    pub fn places_at(
        &mut self,
        cards: &CardPlaces,
        book: &Book,
        frames: &[Frame],
        index: usize,
    ) -> Places {
        let left = self.end.saturating_sub(index);
        if left == 0 || left > AHEAD {
            cards.look_ahead(book, frames.get(index..).unwrap_or(&[]), &mut self.places);
            self.end = index.saturating_add(AHEAD);
            return self.places[0];
        }
        self.places[AHEAD - left]
    }
}
