ghost use Rattle.std.specs.Prelude.{◌≡◌, Some, Ok};
ghost use Rattle.std.specs.FinMap as map;

use issuer_rows::{Book, Places, RowKey, RowVal};
use issuer_view::{RowSource, Stop};

/// The rows of a book that stays as it is, and where they were found.
#[derive(Drop)]
pub struct PlainRows<'a> {
    book: &'a Book,
    places: Places,
}

impl<'a> PlainRows<'a> {
    /// The rows of this book.
    pub fn new(book: &'a Book) -> PlainRows<'a>
        ensures { result.book.now ≡ book.now }
    {
        PlainRows::near(book, Places::new())
    }

    /// The rows of this book, which may stand at these places.
    pub fn near(book: &'a Book, places: Places) -> PlainRows<'a>
        ensures { result.book.now ≡ book.now }
    {
        PlainRows { book, places }
    }

    /// Where the rows were found: a hint for those that are written.
    pub fn into_places(self) -> Places {
        self.places
    }
}

impl RowSource for PlainRows<'_> {
    ghost book = { λ source. Some source.book.now };

    ghost answers = { λ old key result new. (result ≡ Ok (map.get old.book.now key)) × (new.book ≡ old.book) };

    fn read(&mut self, key: &RowKey) -> Result<Option<RowVal>, Stop> {
        Ok(self.book.get(key))
    }

    #[inline(always)]
    fn read_into(&mut self, key: &RowKey, row: &mut Option<RowVal>) -> Result<(), Stop> {
        match self.book.find(key, &mut self.places) {
            Some(val) => val.copy_to(row),
            None if row.is_some() => *row = None,
            None => {}
        }
        Ok(())
    }
}
