ghost use Rattle.std.specs.Prelude.{◌≡◌, true};
ghost use Rattle.book_writer.specs.Sheets.{IsTextOf};

use crate::of_rows::OfRows;
use crate::span::Span;
use book_laws::RowList;
use book_text::{ListedRows, emptied};
use std::alloc::Global;
use std::marker::PhantomData;
use std::mem;

/// The text of those of the rows of a span that stand in its list, made ahead.
#[derive(Drop)]
pub(crate) struct Sheet<B: OfRows> {
    span: Span,
    text: Vec<u8>,
    // Whether an entry of the list stands before the rows behind.
    goes_on: bool,
    // Whether the text and `goes_on` are those of the span.
    is_written: bool,
    of: PhantomData<B>,
    ghost made: { is_written ≡ true → IsTextOf B.rows span text.items goes_on },
}

impl<B: OfRows> Sheet<B> {
    ghost use Rattle.std.specs.Prelude.{◌≡◌, IfSome};
    ghost use Rattle.book_writer.specs.Sheets.{IsTextOf};

    /// A sheet on which nothing is written.
    pub(crate) fn new(alloc: Global) -> Sheet<B> {
        Sheet {
            span: Span {
                list: RowList::Accounts,
                at: 0,
                end: 0,
                later: false,
            },
            text: Vec::new(alloc),
            goes_on: false,
            is_written: false,
            of: PhantomData,
        }
    }

    /// Writes the text of a span of these rows. Where memory runs out, nothing is written.
    pub(crate) fn write(&mut self, rows: &ListedRows<'_>, span: Span)
        requires { rows.now ≡ B.rows }
    {
        self.is_written = false;
        if !span.is_within(rows.len()) {
            return;
        }
        let text = emptied(&mut self.text);
        if let Ok((text, goes_on)) = span.write(text, rows) {
            self.span = span;
            self.text = text;
            self.goes_on = goes_on;
            self.is_written = true;
        }
    }

    /// Swaps its text with another, whose memory it takes, if it is of this span. Returns whether an entry of the list stands before the
    /// rows behind.
    pub(crate) fn take(&mut self, span: Span, text: &mut Vec<u8>) -> Option<bool>
        ensures { IfSome result (λ goes_on. IsTextOf B.rows span text.new.items goes_on) }
    {
        if !self.is_written || !self.span.is(span) {
            return None;
        }
        mem::swap(text, &mut self.text);
        self.is_written = false;
        Some(self.goes_on)
    }
}
