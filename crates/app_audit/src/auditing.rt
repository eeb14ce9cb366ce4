//! Auditing a batch against deciding it one after another.

ghost use Rattle.std.specs.Prelude.{◌≡◌, ◌≤◌, length, IfOk};
ghost use Rattle.issuer_rows.specs.Fold.{rows_after, replies_to};
ghost use Rattle.app_audit.specs.Finding.{Finds};

use crate::audited::Audit;
use crate::comparing::{first_differing_reply, least_differing_row};
use issuer_fold::Prefix;
use issuer_rows::{Book, Frame, ReplyBody};
use issuer_rules::decide_all;
use std::alloc::{AllocError, Global};

/// Whether these are the replies, and this is the book after them, that deciding the bodies one after another on the first book gives.
/// Else what differs first: the number of replies, then the least place of a reply, then the least key of a row. It fails only where
/// memory runs out.
pub fn audit(
    alloc: Global,
    book: &Book,
    frames: &[Frame],
    replies: &[ReplyBody],
    after: &Book,
) -> Result<Audit, AllocError>
    requires { length frames.now ≤ 65536 }
    ensures { IfOk result (Finds replies.now after.now (replies_to book.now frames.now) (rows_after book.now frames.now)) }
{
    let right = decided(alloc, book, frames)?;
    compared(alloc, replies, after, &right)
}

/// The bodies decided one after another on a copy of the book.
fn decided(alloc: Global, book: &Book, frames: &[Frame]) -> Result<Prefix, AllocError>
    requires { length frames.now ≤ 65536 }
    ensures book { IfOk result (λ right. right.book ≡ rows_after book.now frames.now) }
    ensures replies { IfOk result (λ right. right.replies.items ≡ replies_to book.now frames.now) }
{
    decide_all(alloc, Prefix::new(alloc, book.copy()?), frames)
}

/// What differs first between these replies and this book and the right ones.
pub(crate) fn compared(
    alloc: Global,
    replies: &[ReplyBody],
    after: &Book,
    right: &Prefix,
) -> Result<Audit, AllocError>
    requires { length right.now.replies.items ≤ 65536 }
    ensures { IfOk result (Finds replies.now after.now right.now.replies.items right.now.book) }
{
    if replies.len() != right.replies.len() {
        return Ok(Audit::CountDiffers);
    }
    if let Some(place) = first_differing_reply(replies, &right.replies) {
        return Ok(Audit::ReplyDiffers(place));
    }
    match least_differing_row(alloc, after, &right.book)? {
        Some(key) => Ok(Audit::BookDiffers(key)),
        None => Ok(Audit::Same),
    }
}
