//! A book's text, cut into shares. Where it is cut is a hint: what is read is compared with the text.

use crate::share::Share;
use book_laws::RowList;
use book_text::{LISTS, first_piece, last_piece, list_behind, piece_between};
use memchr::memmem;
use std::alloc::{AllocError, Global};

// How many bytes a share of a list has at least, if the list has as many.
const SHARE: usize = 1 << 16;

// What stands between two entries of a list.
const BETWEEN: &[u8] = b"},{";

/// The shares of a text, if its lists are found in it and nothing stands behind them. They aren't read yet.
pub(crate) fn shares_of(alloc: Global, bytes: &[u8]) -> Result<Option<Vec<Share<'_>>>, AllocError> {
    let mut shares = Vec::new(alloc);
    let first = first_piece(Vec::new(alloc))?;
    let Some(mut rest) = bytes.strip_prefix(first.as_slice()) else {
        return Ok(None);
    };
    for list in LISTS {
        let end = match list_behind(list) {
            Some(next) => piece_between(Vec::new(alloc), next)?,
            None => last_piece(Vec::new(alloc))?,
        };
        let Some((entries, behind)) = cut_at(rest, &end) else {
            return Ok(None);
        };
        cut_list(list, entries, &mut shares)?;
        rest = behind;
    }
    Ok(rest.is_empty().then_some(shares))
}

// What stands before a mark in a text, and what stands behind it.
fn cut_at<'a>(text: &'a [u8], mark: &[u8]) -> Option<(&'a [u8], &'a [u8])> {
    let (before, rest) = text.split_at_checked(memmem::find(text, mark)?)?;
    Some((before, rest.strip_prefix(mark)?))
}

// Cuts the entries of a list into shares.
fn cut_list<'a>(
    list: RowList,
    entries: &'a [u8],
    shares: &mut Vec<Share<'a>>,
) -> Result<(), AllocError> {
    let mut rest = entries;
    let mut later = false;
    for _ in 0..entries.len() / SHARE {
        let Some((share, behind)) = cut_share(rest) else {
            break;
        };
        shares.push(Share::new(list, later, share))?;
        rest = behind;
        later = true;
    }
    if !rest.is_empty() {
        shares.push(Share::new(list, later, rest))?;
    }
    Ok(())
}

// The first entries of some, as many as a share has, and those behind them, with the comma between both.
fn cut_share(entries: &[u8]) -> Option<(&[u8], &[u8])> {
    let (_, late) = entries.split_at_checked(SHARE)?;
    let place = memmem::find(late, BETWEEN)?;
    entries.split_at_checked(SHARE + place + 1)
}
