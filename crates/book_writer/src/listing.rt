ghost use Rattle.std.specs.Prelude.{◌≡◌};
ghost use Rattle.book_text.specs.Back.{IsReadAsBook, IsReadAsBook-prop};

use crate::of_rows::OfRows;
use crate::span::Span;
use book_text::ListedRows;
use issuer_rows::SortedRows;
use std::alloc::{AllocError, Global};
use std::marker::PhantomData;

/// The sorted rows, and of which of them the sheets are, one after another.
#[derive(Drop)]
pub(crate) struct Listing<'a, B: OfRows> {
    rows: ListedRows<'a>,
    spans: Vec<Span>,
    of: PhantomData<B>,
    ghost all: { rows ≡ B.rows },
    ghost back: { IsReadAsBook B.rows } by { IsReadAsBook-prop B.rows },
}

impl<'a, B: OfRows> Listing<'a, B> {
    ghost use Rattle.std.specs.Prelude.{◌≡◌};
    ghost use Rattle.book_text.specs.ByKind.{StandByKind};
    ghost use Rattle.book_text.specs.Back.{IsReadAsBook};

    /// Lists these rows.
    pub(crate) fn new(alloc: Global, rows: &'a SortedRows<'_>) -> Result<Listing<'a, B>, AllocError>
        requires by_kind { StandByKind rows.now }
        requires of { rows.now ≡ B.rows }
    {
        let rows = ListedRows::new(rows);
        let spans = Span::all(alloc, &rows)?;
        Ok(Listing {
            rows,
            spans,
            of: PhantomData,
        })
    }

    /// The rows.
    pub(crate) fn rows(&self) -> &ListedRows<'a>
        ensures rows { result.now ≡ B.rows }
        ensures back { IsReadAsBook B.rows }
    {
        &self.rows
    }

    /// Of which rows the sheet of this number is, if there is one.
    pub(crate) fn span(&self, number: usize) -> Option<Span> {
        self.spans.get(number).copied()
    }
}
