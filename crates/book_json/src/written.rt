//! A book from its text in the form in which books are written.

ghost use Rattle.std.specs.Prelude.{◌≡◌, Ok, IfOk, IfSome};
ghost use Rattle.book_laws.specs.Reading.{reading};

use crate::book_reader::BookReader;
use crate::cutting::shares_of;
use crate::share::Share;
use crate::shares::Shares;
use issuer_rows::Book;
use std::alloc::{AllocError, Global};
use std::sync::Wait;
use std::thread::Threads;

// About how many rows there are: some more than each share's first one tells.
fn rows_in(shares: &[Share<'_>]) -> usize {
    let mut rows: usize = 0;
    for share in shares {
        rows = rows.saturating_add(share.estimated_rows());
    }
    rows.saturating_add(rows / 16)
}

/// The book whose text this is, where it is as books are written: version 3, without spaces, the keys of each object and the lists in
/// their order. It is read in one pass, a large one by several threads, without a value of JSON; that it was read right is seen by making
/// the text of the rows of each share again. `None` says nothing of the text. Or memory ran out.
pub(crate) fn read_written<R: Threads + Wait + Sync>(
    rt: &R,
    alloc: Global,
    bytes: &[u8],
) -> Result<Option<Book>, AllocError>
    ensures { IfOk result (λ found. IfSome found (λ book. reading bytes.now ≡ Ok book)) }
{
    let Some(shares) = shares_of(alloc, bytes)? else {
        return Ok(None);
    };
    let Some(mut reader) = BookReader::new(alloc, bytes, rows_in(&shares))? else {
        return Ok(None);
    };
    if !Shares::new(alloc, shares)?.add_to(rt, &mut reader)? {
        return Ok(None);
    }
    reader.finish()
}
