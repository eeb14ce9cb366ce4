//! What of two lists of replies, or of two books, differs first.

ghost use Rattle.std.specs.Prelude.{◌≡◌, ◌≤◌, length, IfOk, IfSome, IfNone};
ghost use Rattle.std.specs.Map.Iter.{deref_pair};
ghost use Rattle.itertools.specs.EitherOrBoth.{map_any};
ghost use Rattle.app_audit.specs.Difference.{IsFirstDifference, IsLeastDifference};
ghost use Rattle.app_audit.specs.JoinedRows.{DifferAt, AreSame};

use issuer_rows::{Book, ReplyBody, RowKey, RowVal};
use itertools::EitherOrBoth::{Both, Left, Right};
use itertools::{EitherOrBoth, Itertools};
use std::alloc::{AllocError, Global};

/// The place of the first reply that isn't the right one.
pub(crate) fn first_differing_reply(replies: &[ReplyBody], right: &[ReplyBody]) -> Option<u32>
    requires count { length replies.now ≡ length right.now }
    requires few { length right.now ≤ 65536 }
    ensures some { IfSome result (IsFirstDifference replies.now right.now) }
    ensures none { IfNone result (replies.now ≡ right.now) }
{
    let place = replies
        .iter()
        .zip_eq(right)
        .position(|(mine, theirs)| !mine.is_same(theirs))?;
    Some(place as u32)
}

/// The least key whose row isn't the right one.
pub(crate) fn least_differing_row(
    alloc: Global,
    book: &Book,
    right: &Book,
) -> Result<Option<RowKey>, AllocError>
    ensures some { IfOk result (λ key. IfSome key (IsLeastDifference book.now right.now)) }
    ensures none { IfOk result (λ key. IfNone key (book.now ≡ right.now)) }
{
    let mine = book.sorted_rows(alloc)?;
    let theirs = right.sorted_rows(alloc)?;
    let least = mine
        .iter()
        .merge_join_by(theirs.iter(), |(mine, _), (theirs, _)| mine.cmp(theirs))
        .find_map(differing_key);
    Ok(least)
}

/// The key of a row that isn't the same in both books.
fn differing_key(row: EitherOrBoth<(&RowKey, &RowVal)>) -> Option<RowKey>
    ensures some { IfSome result (DifferAt (map_any deref_pair deref_pair row.entry)) }
    ensures none { IfNone result (AreSame (map_any deref_pair deref_pair row.entry)) }
{
    match row {
        Both((_, mine), (_, theirs)) if mine.is_same(theirs) => None,
        Both((key, _), _) | Left((key, _)) | Right((key, _)) => Some(*key),
    }
}
