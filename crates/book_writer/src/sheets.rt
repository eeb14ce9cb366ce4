use crate::listing::Listing;
use crate::of_rows::OfRows;
use crate::sheet::Sheet;
use crate::span::Span;
use book_text::{WorkAhead, lock_meanwhile};
use std::alloc::{AllocError, Global};
use std::sync::{Mutex, Wait};

// How many sheets are written ahead at most.
const SHEETS: usize = 32;

/// Sheets of the rows of a listing, one behind another, which several threads write ahead.
#[derive(Drop)]
pub(crate) struct Sheets<B: OfRows> {
    // A sheet stands at its number's remainder, so that it has the memory of an earlier one.
    sheets: Vec<Mutex<Sheet<B>>>,
    ahead: WorkAhead,
}

impl<B: OfRows> Sheets<B> {
    ghost use Rattle.std.specs.Prelude.{IfSome};
    ghost use Rattle.book_writer.specs.Sheets.{IsTextOf};

    /// Sheets on which nothing is written.
    pub(crate) fn new(alloc: Global) -> Result<Sheets<B>, AllocError> {
        let mut sheets = Vec::new(alloc);
        for _ in 0..SHEETS {
            sheets.push(Mutex::new(Sheet::new(alloc)))?;
        }
        Ok(Sheets {
            sheets,
            ahead: WorkAhead::new(SHEETS),
        })
    }

    /// Writes sheets ahead, one after another, as long as there are any.
    pub(crate) fn help<R: Wait>(&self, rt: &R, listing: &Listing<'_, B>) {
        for _ in rt.forever() {
            let number = self.ahead.draw();
            let Some(span) = listing.span(number) else {
                return;
            };
            self.ahead.await_room(rt, number);
            self.write(rt, listing, number, span);
        }
    }

    // Writes the next sheet that nobody writes. Returns whether there was one.
    fn write_next<R: Wait>(&self, rt: &R, listing: &Listing<'_, B>) -> bool {
        let Some(number) = self.ahead.try_draw() else {
            return false;
        };
        let Some(span) = listing.span(number) else {
            return false;
        };
        self.write(rt, listing, number, span);
        true
    }

    // Writes the sheet of this number, if it is still needed.
    fn write<R: Wait>(&self, rt: &R, listing: &Listing<'_, B>, number: usize, span: Span) {
        let Some(sheet) = self.sheet(number) else {
            return;
        };
        let mut sheet = sheet.lock(rt);
        if self.ahead.is_needed(number) {
            sheet.write(listing.rows(), span);
        }
    }

    // Where the sheet of this number stands.
    fn sheet(&self, number: usize) -> Option<&Mutex<Sheet<B>>> {
        self.sheets.get(number % SHEETS)
    }

    /// Swaps the text of this span with another, if it is written on the sheet of this number. Returns whether an entry of the list
    /// stands before the rows behind. While another thread writes the sheet, this one writes others.
    pub(crate) fn take<R: Wait>(
        &self,
        rt: &R,
        listing: &Listing<'_, B>,
        number: usize,
        span: Span,
        text: &mut Vec<u8>,
    ) -> Option<bool>
        ensures { IfSome result (λ goes_on. IsTextOf B.rows span text.new.items goes_on) }
    {
        let sheet = self.sheet(number)?;
        let mut sheet = lock_meanwhile(rt, sheet, &|| self.write_next(rt, listing));
        self.ahead.end_piece(number);
        sheet.take(span, text)
    }

    /// Says that no more sheets are taken, so that helpers end.
    pub(crate) fn close(&self) {
        self.ahead.close();
    }
}
