use crate::book::Book;
use crate::frame::Frame;
use crate::places::Places;
use crate::row_key::RowKey;
use crate::row_val::RowVal;
use iso8583::Pan;
use std::alloc::{AllocError, Global};

// How many digits of a card's number determine where its places are noted. Each number has more digits.
const DIGITS: usize = 8;

// An odd number whose bits are spread, by which digits are multiplied (the golden ratio, as hashes by multiplication use it).
const SPREAD: u64 = 0x9E37_79B9_7F4A_7C15;

// How many rows a book has at most for each body of a batch, so that finding its cards' rows at once is worth it.
const FEW_ROWS: usize = 8;

// For how many cards there is room where the book has one.
const SPACE: usize = 4;

/// Where the rows were found last that a card's messages ask for: its own, its day's, its budget's and its account's. So they are read
/// without a look-up, and ahead of the message that asks for them. It is a hint alone, as places are.
#[derive(Drop)]
pub struct CardPlaces {
    // By the last digits of the card's number. Cards whose digits fall together displace one another.
    of_card: Vec<Places>,
}

impl CardPlaces {
    /// Places of no card.
    pub fn new(alloc: Global) -> CardPlaces {
        CardPlaces {
            of_card: Vec::new(alloc),
        }
    }

    /// Finds the rows of a book's cards and of their accounts, unless some were found before. It fails only where memory runs out.
    pub fn find_all(&mut self, book: &Book) -> Result<(), AllocError> {
        if !self.of_card.is_empty() {
            return Ok(());
        }
        self.make_room(cards_in(book))?;
        let mut place: usize = 0;
        for (key, val) in book.rows() {
            self.find_one(book, place, key, val);
            place = place.saturating_add(1);
        }
        Ok(())
    }

    /// The same, if the book has few rows for so many bodies. It fails only where memory runs out.
    pub fn find_if_few(&mut self, book: &Book, bodies: usize) -> Result<(), AllocError> {
        if book.len() <= bodies.saturating_mul(FEW_ROWS) {
            self.find_all(book)?;
        }
        Ok(())
    }

    // Notes where a row stands, if it is a card's, and its account's.
    fn find_one(&mut self, book: &Book, place: usize, key: &RowKey, val: &RowVal) {
        if let (RowKey::Card(pan), RowVal::Card(card)) = (key, val) {
            let mut places = Places::new();
            places.note(key, place);
            book.find(&RowKey::Account(card.accounts.first()), &mut places);
            self.note_card(pan, &places);
        }
    }

    // Makes room for more cards, so that few fall together.
    fn make_room(&mut self, cards: usize) -> Result<(), AllocError> {
        let alloc = *self.of_card.allocator();
        self.of_card = vec![in alloc; Places::new(); cards.saturating_mul(SPACE)]?;
        Ok(())
    }

    // Notes where the rows of a card stand.
    #[inline(always)]
    fn note_card(&mut self, pan: &Pan, places: &Places) {
        let slot = slot_of(pan, self.of_card.len());
        if let Some(noted) = self.of_card.get_mut(slot) {
            *noted = places.of_card();
        }
    }

    /// Notes where the rows stand that a body asked for.
    #[inline(always)]
    pub fn note(&mut self, frame: &Frame, places: &Places) {
        if let Some(pan) = frame.pan() {
            self.note_card(pan, places);
        }
    }

    /// Where the rows may stand that the first bodies ask for, as many as there are places. These rows are looked at, many of them at
    /// once, so that they are near when they are asked for.
    pub fn look_ahead(&self, book: &Book, frames: &[Frame], ahead: &mut [Places]) {
        for (places, frame) in ahead.iter_mut().zip(frames) {
            *places = self.places_of(frame);
        }
        for places in ahead.iter_mut() {
            book.keep_standing(places);
        }
    }

    /// Where the rows may stand that a body asks for.
    #[inline(always)]
    pub fn places_of(&self, frame: &Frame) -> Places {
        let Some(pan) = frame.pan() else {
            return Places::new();
        };
        match self.of_card.get(slot_of(pan, self.of_card.len())) {
            Some(places) => *places,
            None => Places::new(),
        }
    }
}

// How many cards a book has.
fn cards_in(book: &Book) -> usize {
    let mut cards: usize = 0;
    for (key, _) in book.rows() {
        if let RowKey::Card(_) = key {
            cards = cards.saturating_add(1);
        }
    }
    cards
}

// Which of so many places a card's last digits name. Any choice is right.
fn slot_of(pan: &Pan, size: usize) -> usize {
    let mut last = [0; DIGITS];
    let digits = pan.as_slice();
    last.copy_from_slice(&digits[digits.len() - DIGITS..]);
    let spread = u64::from_be_bytes(last).wrapping_mul(SPREAD) >> 32;
    (spread.wrapping_mul(size as u64) >> 32) as usize
}
