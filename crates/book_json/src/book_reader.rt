//! A book's text that is read share by share.

ghost use Rattle.std.specs.Prelude.{◌≡◌, ◌≢◌, ◌++◌, ℕ, List, IfOk, IsTrue, MatchOption};
ghost use Rattle.book_json.specs.ReadsOn.{TakesRows, pairs_of};

use crate::read_share::ReadShare;
use crate::row::Row;
use book_laws::RowList;
use book_text::{LISTS, first_piece, last_piece, list_behind, piece_between, row_is_read};
use issuer_rows::Book;
use std::alloc::{AllocError, Global};

/// A book's text that is read from its beginning on, and the rows so far.
#[derive(Drop)]
pub(crate) struct BookReader<'a> {
    // What is left of the text.
    pub(crate) rest: &'a [u8],
    // Which list it begins in, and whether an entry of the list stands before it.
    pub(crate) list: RowList,
    pub(crate) later: bool,
    pub(crate) book: Book,
    alloc: Global,
}

impl<'a> BookReader<'a> {
    ghost use Rattle.std.specs.Prelude.{◌≡◌, ℕ, List, Ok, IfOk, IfSome, IsTrue};
    ghost use Rattle.book_laws.specs.Reading.{reading};
    ghost use Rattle.book_json.specs.ReadsOn.{ReadsOnBy, IsFurther};

    /// A reader of a text, if it begins as a book's, with room for so many rows.
    pub(crate) fn new(
        alloc: Global,
        bytes: &'a [u8],
        rows: usize,
    ) -> Result<Option<BookReader<'a>>, AllocError>
        ensures { IfOk result (λ found. IfSome found (ReadsOnBy bytes.now)) }
    {
        let first = first_piece(Vec::new(alloc))?;
        let Some(rest) = behind(bytes, &first) else {
            return Ok(None);
        };
        let mut book = Book::new(alloc);
        book.reserve(rows)?;
        Ok(Some(BookReader {
            rest,
            list: RowList::Accounts,
            later: false,
            book,
            alloc,
        }))
    }

    /// Goes on behind the entries of a share, whose rows the book is given. Returns whether they stand there, and none is of a row that
    /// stands in the text before them.
    pub(crate) fn add(&mut self, share: &ReadShare<'_>) -> Result<bool, AllocError>
        ensures { IfOk result (λ is_added. IsTrue is_added → IsFurther self.old self.new) }
    {
        if !self.enter(share.list)? || self.later != share.later {
            return Ok(false);
        }
        let Some(rest) = behind(self.rest, share.text) else {
            return Ok(false);
        };
        if !put_rows(&share.rows, &mut self.book)? {
            return Ok(false);
        }
        self.rest = rest;
        self.later = share.goes_on;
        Ok(true)
    }

    /// The book whose text this is, if it ends here.
    pub(crate) fn finish(self) -> Result<Option<Book>, AllocError>
        ensures { IfOk result (λ found. IfSome found (λ book. (bytes : List ℕ) → ReadsOnBy bytes self.entry → reading bytes ≡ Ok book)) }
    {
        let mut reader = self;
        if !reader.enter(RowList::Originals)? {
            return Ok(None);
        }
        let last = last_piece(Vec::new(reader.alloc))?;
        if reader.rest != last.as_slice() {
            return Ok(None);
        }
        let BookReader { book, .. } = reader;
        Ok(Some(book))
    }

    // Goes on to the beginning of this list, unless it is there. Returns whether all lists before it end here.
    fn enter(&mut self, list: RowList) -> Result<bool, AllocError>
        ensures there { IfOk result (λ is_there. IsTrue is_there → self.new.list ≡ list) }
        ensures on { IfOk result (λ is_there. IsTrue is_there → IsFurther self.old self.new) }
    {
        for _ in LISTS {
            if self.list == list {
                return Ok(true);
            }
            if !self.leave()? {
                return Ok(false);
            }
        }
        Ok(false)
    }

    // Goes on to the next list. Returns whether there is one, and it begins here.
    fn leave(&mut self) -> Result<bool, AllocError>
        ensures { IfOk result (λ is_left. IsTrue is_left → IsFurther self.old self.new) }
    {
        let Some(next) = list_behind(self.list) else {
            return Ok(false);
        };
        let between = piece_between(Vec::new(self.alloc), next)?;
        let Some(rest) = behind(self.rest, &between) else {
            return Ok(false);
        };
        self.rest = rest;
        self.list = next;
        self.later = false;
        Ok(true)
    }
}

// What stands behind a piece at the beginning of bytes, if it stands there.
fn behind<'a>(bytes: &'a [u8], piece: &[u8]) -> Option<&'a [u8]>
    ensures { MatchOption result ((rest : List ℕ) → bytes.now ≢ piece.now ++ rest) (λ rest. bytes.now ≡ piece.now ++ rest.now) }
{
    bytes.strip_prefix(piece)
}

// Puts rows into the book, one after another. Returns whether each was new there.
fn put_rows(rows: &[Row], book: &mut Book) -> Result<bool, AllocError>
    ensures { IfOk result (λ are_new. IsTrue are_new → TakesRows (pairs_of rows.now) book.old book.new) }
{
    for row in rows {
        row_is_read(&row.key, &row.val);
        let before = book.len();
        book.put_copy(&row.key, &row.val)?;
        if book.len() == before {
            return Ok(false);
        }
    }
    Ok(true)
}
