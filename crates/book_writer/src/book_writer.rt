use crate::listing::Listing;
use crate::of_rows::OfRows;
use crate::pieces::BookPieces;
use crate::sheets::Sheets;
use crate::sorting::Sorting;
use book_text::{Help, with_help};
use std::alloc::AllocError;
use std::sync::{OnceLock, Wait};
use std::thread::Threads;

// Of fewer rows no thread but the one that takes the pieces makes text.
const MANY: usize = 2048;

/// What the threads share that make a book's text.
#[derive(Drop)]
pub struct BookWriter<'s, 'a, B: OfRows> {
    sorting: &'s Sorting<'a, B>,
    listing: OnceLock<Option<Listing<'s, B>>>,
    sheets: Sheets<B>,
}

impl<'s, 'a, B: OfRows> BookWriter<'s, 'a, B> {
    ghost use Rattle.std.specs.Prelude.{◌≡◌, IfOk, OnOk};
    ghost use Rattle.std.specs.FinMap as map;
    ghost use Rattle.issuer_rows.specs.Fold.{Rows};
    ghost use Rattle.book_laws.specs.Text.{book_text};
    ghost use Rattle.book_text.specs.Back.{IsReadAsBook};
    ghost use Rattle.book_writer.specs.Rest.{rest_of};

    /// A writer for the text of these rows. It fails only where memory runs out.
    pub fn new(sorting: &'s Sorting<'a, B>) -> Result<BookWriter<'s, 'a, B>, AllocError> {
        Ok(BookWriter {
            sorting,
            listing: OnceLock::new(),
            sheets: Sheets::new(sorting.alloc())?,
        })
    }

    // The listing of the rows, unless memory ran out. The first thread that needs it makes it, and others wait.
    fn listing<R: Threads + Wait + Sync>(&self, rt: &R) -> Option<&Listing<'s, B>> {
        self.listing.get_or_init(rt, || self.list(rt)).as_ref()
    }

    // Lists the rows.
    fn list<R: Threads + Wait + Sync>(&self, rt: &R) -> Option<Listing<'s, B>> {
        let rows = self.sorting.rows(rt)?;
        Listing::new(self.sorting.alloc(), rows).ok()
    }

    /// The text of the book that has these rows. No piece is made yet. It fails only where memory runs out.
    pub fn pieces<'d, R: Threads + Wait + Sync>(
        &'d self,
        rt: &'d R,
    ) -> Result<BookPieces<'d, R, B>, AllocError>
        ensures rest { IfOk result (λ pieces. (book : Rows) → B.rows ≡ map.entries book → rest_of pieces.left ≡ book_text book) }
        // That text is read again as the book.
        ensures back { OnOk result (IsReadAsBook B.rows) }
    {
        match self.listing(rt) {
            Some(listing) => Ok(BookPieces::new(rt, self.sorting.alloc(), listing, &self.sheets)),
            None => Err(AllocError),
        }
    }
}

impl<B: OfRows + Send + Sync> Help for BookWriter<'_, '_, B> {
    // Sorts and lists the rows if nobody did, and writes sheets ahead until all are written or no more are needed.
    fn help<R: Threads + Wait + Sync>(&self, rt: &R) {
        if let Some(listing) = self.listing(rt) {
            self.sheets.help(rt, listing);
        }
    }

    fn close(&self) {
        self.sheets.close();
    }
}

impl<B: OfRows + Send + Sync> BookWriter<'_, '_, B> {
    /// Calls `work`, which takes the pieces. Where the rows are many, other threads make pieces ahead of it meanwhile.
    pub fn with_help<R: Threads + Wait + Sync, T, F: FnMut() -> T>(&self, rt: &R, work: &mut F) -> T
        requires { F.pre work.old }
        ensures { F.step work.old result work.new }
    {
        if self.sorting.len() < MANY {
            return work();
        }
        with_help(rt, self, work)
    }
}
