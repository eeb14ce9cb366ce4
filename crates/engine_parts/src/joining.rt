ghost use Rattle.std.specs.Prelude.{◌≡◌, ◌+◌, ◌<◌, ◌≤◌, List, length, map, slice_get, IfOk, OnOk};
ghost use Rattle.std.specs.List.{AllByRecursion};
ghost use Rattle.engine_parts.specs.Decided.{HaveParts, list_at, replies_of, with_next};
ghost use Rattle.engine_parts.specs.TwoBooks.{joined_all};
ghost use Rattle.issuer_words.specs.Words.{ReplyBody};

use crate::decided_part::DecidedPart;
use crate::writing::put_book;
use issuer_fold::Prefix;
use issuer_rows::{Book, ReplyBody};
use std::alloc::{AllocError, Global};
use std::thread;
use std::thread::Threads;

/// The book behind all parts, and the replies in the order of arrival: the last part was decided on the book, the others over the opening
/// one. Rows and replies are put together beside one another. It fails only where memory runs out.
pub(crate) fn join_parts<R: Threads + Sync>(
    rt: &R,
    alloc: Global,
    parts: &[u32],
    others: &[DecidedPart],
    last: Prefix,
) -> Result<(Book, Vec<ReplyBody>), AllocError>
    requires few { length parts.now ≤ 65536 }
    requires below { AllByRecursion (λ part. part < length others.now + 1) parts.now }
    ensures book { IfOk result (λ whole. whole.0 ≡ joined_all last.book (map (λ part. part.rows) others.now)) }
    ensures replies { (all : List ReplyBody) → length all ≡ length parts.now → HaveParts parts.now all (replies_of others.now last.replies.items) → IfOk result (λ whole. whole.1.items ≡ all) }
{
    let Prefix { book, replies, .. } = last;
    let mine = replies.as_slice();
    let (whole, ordered) = thread::join(
        rt,
        || -> Result<Book, AllocError>
            ensures { IfOk result (λ whole. whole ≡ joined_all book (map (λ part. part.rows) others.entry.now)) }
        { with_rows_of(book, others) },
        || -> Result<Vec<ReplyBody>, AllocError>
            requires few { length parts.now ≤ 65536 }
            requires below { AllByRecursion (λ part. part < length others.now + 1) parts.now }
            ensures { (all : List ReplyBody) → length all ≡ length parts.entry.now → HaveParts parts.entry.now all (replies_of others.entry.now mine.entry.now) → IfOk result (λ ordered. ordered.items ≡ all) }
        { in_order(alloc, parts, others, mine) },
    );
    Ok((whole?, ordered?))
}

// The book with the rows of these parts.
fn with_rows_of(book: Book, decided: &[DecidedPart]) -> Result<Book, AllocError>
    ensures { IfOk result (λ whole. whole ≡ joined_all book (map (λ part. part.rows) decided.now)) }
{
    let mut whole = book;
    put_parts(&mut whole, decided)?;
    Ok(whole)
}

// Writes the rows of these parts to the book.
fn put_parts(book: &mut Book, decided: &[DecidedPart]) -> Result<(), AllocError>
    ensures { OnOk result (book.new ≡ joined_all book.old (map (λ part. part.rows) decided.now)) }
{
    for part in decided {
        put_book(book, &part.rows)?;
    }
    Ok(())
}

// The replies of all parts in the order of arrival: each message's is the next one of its part.
fn in_order(
    alloc: Global,
    parts: &[u32],
    others: &[DecidedPart],
    last: &[ReplyBody],
) -> Result<Vec<ReplyBody>, AllocError>
    requires few { length parts.now ≤ 65536 }
    requires below { AllByRecursion (λ part. part < length others.now + 1) parts.now }
    ensures { (all : List ReplyBody) → length all ≡ length parts.now → HaveParts parts.now all (replies_of others.now last.now) → IfOk result (λ ordered. ordered.items ≡ all) }
{
    let mut next = vec![in alloc; 0usize; others.len() + 1]?;
    let mut ordered = Vec::with_capacity(alloc, parts.len())?;
    for part in parts {
        let part = *part as usize;
        let place = next[part];
        next[part] = place + 1;
        push_reply(&mut ordered, of_part(others, last, part), place)?;
    }
    Ok(ordered)
}

// Appends the reply at this place, if there is one.
fn push_reply(
    ordered: &mut Vec<ReplyBody>,
    replies: &[ReplyBody],
    place: usize,
) -> Result<(), AllocError>
    ensures { OnOk result (ordered.new.items ≡ with_next ordered.old.items (slice_get replies.now place)) }
{
    match replies.get(place) {
        Some(reply) => {
            ordered.push(*reply)?;
            Ok(())
        }
        None => Ok(()),
    }
}

// The replies of a part: of the last where the number is none of the others'.
fn of_part<'a>(others: &'a [DecidedPart], last: &'a [ReplyBody], part: usize) -> &'a [ReplyBody]
    requires { part < length others.now + 1 }
    ensures { result.now ≡ list_at (replies_of others.now last.now) part }
{
    if part < others.len() {
        &others[part].replies
    } else {
        last
    }
}
