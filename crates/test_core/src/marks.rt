//! Where a core stands behind its calls: epoch, floors, stamps, and its messages.

use crate::words::{is_number, is_status};
use issuer_rows::{Book, Frame};
use stm_core::Core;

// The words of a line, of which the longest has eleven; an empty one for each that isn't there.
fn words_of(text: &str) -> [&str; 11] {
    let mut words = [""; 11];
    for (index, word) in text.split(' ').enumerate() {
        if index < words.len() {
            words[index] = word;
        }
    }
    words
}

/// Whether the core has this epoch, floors of three messages and one more, and stamps.
pub(crate) fn has_marks(core: &Core, book: &Book, frames: &[Frame; 3], text: &str) -> bool {
    if !core.opened_with(book, frames) {
        return false;
    }
    let words = words_of(text);
    words[0] == "epoch"
        && is_number(words[1], Some(core.epoch()))
        && words[2] == "floors"
        && is_number(words[3], Some(core.floor(0)))
        && is_number(words[4], Some(core.floor(1)))
        && is_number(words[5], Some(core.floor(2)))
        && is_number(words[6], Some(core.floor(3)))
        && words[7] == "stamps"
        && is_number(words[8], core.stamp(0))
        && is_number(words[9], core.stamp(1))
        && is_number(words[10], core.stamp(2))
}

/// Whether the three messages stand so, each at this incarnation.
pub(crate) fn has_stands(core: &Core, book: &Book, frames: &[Frame; 3], text: &str) -> bool {
    if !core.opened_with(book, frames) {
        return false;
    }
    let words = words_of(text);
    is_status(words[0], core.status(0))
        && is_number(words[1], Some(u64::from(core.incarnation(0))))
        && is_status(words[2], core.status(1))
        && is_number(words[3], Some(u64::from(core.incarnation(1))))
        && is_status(words[4], core.status(2))
        && is_number(words[5], Some(u64::from(core.incarnation(2))))
}

/// Whether these are the greatest incarnation and epoch that the core may come to.
pub(crate) fn has_limits(core: &Core, text: &str) -> bool {
    let words = words_of(text);
    let limits = core.limits();
    is_number(words[0], Some(u64::from(limits.incarnation)))
        && is_number(words[1], Some(limits.epoch))
}
