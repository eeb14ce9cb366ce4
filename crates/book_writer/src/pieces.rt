ghost use Rattle.std.specs.Prelude.{◌≡◌};

use crate::listing::Listing;
use crate::of_rows::OfRows;
use crate::sheets::Sheets;
use crate::span::Span;
use crate::text_left::{TextLeft, TextPlace};
use book_laws::RowList;
use file_devices::Pieces;
use std::alloc::{AllocError, Global};
use std::sync::Wait;

/// The text of a book, made piece by piece: JSON of version 3, as [`write_book`](book_text::write_book) makes it at once. Other threads
/// make pieces ahead, and their memory is used again by later ones.
#[derive(Drop)]
pub struct BookPieces<'a, R: Wait, B: OfRows> {
    rt: &'a R,
    listing: &'a Listing<'a, B>,
    sheets: &'a Sheets<B>,
    // Which sheet is taken next.
    next: usize,
    left: TextLeft<'a>,
    ghost of: { left.rows.now ≡ B.rows },
}

impl<'a, R: Wait, B: OfRows> BookPieces<'a, R, B> {
    ghost use Rattle.std.specs.Prelude.{◌≡◌, ◌<◌, ◌≤◌, ◌++◌, length, OnOk};
    ghost use Rattle.book_text.specs.Back.{IsReadAsBook};
    ghost use Rattle.book_text.specs.Left.{text_of_rows};
    ghost use Rattle.book_writer.specs.Rest.{rest_of, piece_of, pieces_left};
    ghost use Rattle.book_writer.specs.declared.text_left.TextPlace.TheVariants as place;

    /// The text of the listing's rows. No piece is made yet.
    pub(crate) fn new(
        rt: &'a R,
        alloc: Global,
        listing: &'a Listing<'a, B>,
        sheets: &'a Sheets<B>,
    ) -> BookPieces<'a, R, B>
        ensures rest { rest_of result.left ≡ text_of_rows B.rows }
        ensures back { IsReadAsBook B.rows }
    {
        BookPieces {
            rt,
            listing,
            sheets,
            next: 0,
            left: TextLeft::new(alloc, listing.rows()),
        }
    }

    // Makes the text of the next rows of the list, or of what stands behind its last one.
    fn go_on(&mut self, list: RowList) -> Result<(), AllocError>
        requires { self.old.left.place ≡ place.In list }
        ensures rest { OnOk result (rest_of self.old.left ≡ piece_of self.new.left ++ rest_of self.new.left) }
        ensures fewer { OnOk result (pieces_left self.new.left < pieces_left self.old.left) }
    {
        if self.left.at >= self.left.rows.len() {
            return self.left.leave(list);
        }
        let span = self.next_span(list);
        let number = self.next;
        self.next = number.saturating_add(1);
        let (rt, listing, sheets) = (self.rt, self.listing, self.sheets);
        let left = &mut self.left;
        match sheets.take(rt, listing, number, span, &mut left.text) {
            Some(goes_on) => {
                left.go_on(span, goes_on);
                Ok(())
            }
            None => left.write(span),
        }
    }

    // Of which rows the next sheet is, behind what stands before them; where it isn't of the next ones in the list, some of these.
    fn next_span(&self, list: RowList) -> Span
        requires { self.now.left.at < length self.now.left.rows.now }
        ensures list { result.list ≡ list }
        ensures at { result.at ≡ self.now.left.at }
        ensures later { result.later ≡ self.now.left.later }
        ensures some { result.at < result.end }
        ensures within { result.end ≤ length self.now.left.rows.now }
    {
        let TextLeft {
            rows,
            at,
            later,
            ..
        } = self.left;
        match self.listing.span(self.next) {
            Some(span) if span.begins(list, at) && span.is_within(rows.len()) => Span {
                later,
                ..span
            },
            _ => self.left.next_rows(list),
        }
    }
}

impl<R: Wait, B: OfRows> Pieces for BookPieces<'_, R, B> {
    ghost use Rattle.book_writer.specs.Rest.{rest_of, piece_of, pieces_left};

    ghost rest = { λ p. rest_of p.left };

    ghost made = { λ p. piece_of p.left };

    ghost left = { λ p. pieces_left p.left };

    fn make_next(&mut self) -> Result<bool, AllocError> {
        match self.left.place {
            TextPlace::Start => self.left.start()?,
            TextPlace::In(list) => self.go_on(list)?,
            TextPlace::End => return Ok(false),
        }
        Ok(true)
    }

    fn piece(&self) -> &[u8] {
        self.left.piece()
    }
}
