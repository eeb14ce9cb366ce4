ghost use Rattle.std.specs.Prelude.{◌≡◌};
ghost use Rattle.std.specs.Result.{ForOk};
ghost use Rattle.std.specs.FinMap as map;
ghost use Rattle.issuer_rows.specs.Book.{AllOfKind};
ghost use Rattle.std.proofs.Props.{props};

use crate::of_rows::OfRows;
use issuer_rows::{Book, SortedRows};
use std::alloc::{AllocError, Global};
use std::marker::PhantomData;
use std::sync::{OnceLock, Wait};
use std::thread::Threads;

/// The rows of a book, which the first thread that needs them has sorted.
#[derive(Drop)]
pub struct Sorting<'a, B: OfRows> {
    alloc: Global,
    book: &'a Book,
    sorted: OnceLock<Sorted<'a, B>>,
    ghost of: { map.entries book.now ≡ B.rows },
}

// The sorted rows, unless memory ran out.
#[derive(Drop)]
struct Sorted<'a, B: OfRows> {
    rows: Result<SortedRows<'a>, AllocError>,
    of: PhantomData<B>,
    ghost sorted: { ForOk rows (λ sorted. sorted ≡ B.rows) },
    ghost kinds: { AllOfKind B.rows } by { Prim.hlevel props },
}

impl<'a, B: OfRows> Sorting<'a, B> {
    ghost use Rattle.std.specs.Prelude.{◌≡◌, IfSome};
    ghost use Rattle.std.specs.FinMap as map;
    ghost use Rattle.book_text.specs.ByKind.{StandByKind};

    /// The rows of this book, which nobody has sorted yet.
    pub fn new(alloc: Global, book: &'a Book) -> Sorting<'a, B>
        requires { map.entries book.now ≡ B.rows }
    {
        Sorting {
            alloc,
            book,
            sorted: OnceLock::new(),
        }
    }

    // How many rows there are.
    pub(crate) fn len(&self) -> usize {
        self.book.len()
    }

    // Where memory comes from.
    pub(crate) fn alloc(&self) -> Global {
        self.alloc
    }

    // The sorted rows, unless memory ran out. While another thread sorts them, this one waits.
    pub(crate) fn rows<R: Threads + Wait + Sync>(&self, rt: &R) -> Option<&SortedRows<'a>>
        ensures rows { IfSome result (λ rows. rows.now ≡ B.rows) }
        ensures by_kind { StandByKind B.rows }
    {
        let sorted = self.sorted.get_or_init(rt, || self.sort(rt));
        sorted.rows()
    }

    // Sorts the rows, by several threads.
    fn sort<R: Threads + Sync>(&self, rt: &R) -> Sorted<'a, B> {
        Sorted {
            rows: self.book.rows_sorted_by_threads(rt, self.alloc),
            of: PhantomData,
        }
    }
}

impl<'a, B: OfRows> Sorted<'a, B> {
    ghost use Rattle.std.specs.Prelude.{◌≡◌, IfSome};
    ghost use Rattle.issuer_rows.specs.Book.{AllOfKind};

    // The rows, if there are any.
    fn rows(&self) -> Option<&SortedRows<'a>>
        ensures rows { IfSome result (λ rows. rows.now ≡ B.rows) }
        ensures kinds { AllOfKind B.rows }
    {
        match &self.rows {
            Ok(rows) => Some(rows),
            Err(_) => None,
        }
    }
}
