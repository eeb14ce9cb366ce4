use crate::row_key::RowKey;

/// How many kinds of rows there are.
pub(crate) const KINDS: u8 = 5;

// The kind of an original's row.
const ORIGINAL: u8 = 3;

// The place of a row that wasn't found.
const NOWHERE: u32 = u32::MAX;

/// Where a row of each kind was found last, which saves a look-up for one that still stands there. It is a hint alone: what
/// a book answers and what it holds do not depend on it.
#[derive(Clone, Copy)]
pub struct Places {
    of_kind: [u32; KINDS as usize],
}

impl Places {
    /// No row was found yet.
    pub fn new() -> Places {
        Places {
            of_kind: [NOWHERE; KINDS as usize],
        }
    }

    // Notes where a row was found.
    #[inline(always)]
    pub(crate) fn note(&mut self, key: &RowKey, place: usize) {
        self.note_kind(key.kind(), u32::try_from(place).unwrap_or(NOWHERE));
    }

    // Forgets where a row of this kind was found.
    #[inline(always)]
    pub(crate) fn forget(&mut self, kind: u8) {
        self.note_kind(kind, NOWHERE);
    }

    // The places of the rows that other messages of the card ask for too: all but that of an original.
    #[inline(always)]
    pub(crate) fn of_card(&self) -> Places {
        let mut places = *self;
        places.forget(ORIGINAL);
        places
    }

    #[inline(always)]
    fn note_kind(&mut self, kind: u8, place: u32) {
        if let Some(noted) = self.of_kind.get_mut(kind as usize) {
            *noted = place;
        }
    }

    // Where a row of this key's kind was found last.
    #[inline(always)]
    pub(crate) fn last(&self, key: &RowKey) -> usize {
        self.last_of(key.kind())
    }

    // Where a row of this kind was found last.
    #[inline(always)]
    pub(crate) fn last_of(&self, kind: u8) -> usize {
        match self.of_kind.get(kind as usize) {
            Some(place) => *place as usize,
            None => NOWHERE as usize,
        }
    }
}
