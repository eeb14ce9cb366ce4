//! What a core answers, and what it comes to.

use crate::journal_scripts::JournalScript;
use crate::words::task;
use issuer_fold::Prefix;
use issuer_rows::{Book, Frame, ReplyBody};
use std::alloc::Global;
use stm_core::Core;
use stm_core_laws::CoreFault;
use stm_journal::CoreAnswer;
use test_fixtures::{answer_text, body, has_row};

/// The three requests.
pub(crate) fn frames_of(bodies: &[&str; 3]) -> Option<[Frame; 3]> {
    Some([body(bodies[0])?, body(bodies[1])?, body(bodies[2])?])
}

/// Whether the answer is the next one that the script states; of answers that are no task and no refusal it states none.
pub(crate) fn is_told(told: &[&str], met: &mut usize, answer: &CoreAnswer) -> bool {
    let is_next = match answer {
        CoreAnswer::Claimed(given) => match told.get(*met) {
            Some(text) => task(text) == Some(*given),
            None => false,
        },
        CoreAnswer::Refused(CoreFault::Outdated) => told.get(*met).copied() == Some("outdated"),
        CoreAnswer::Refused(_) => false,
        _ => return true,
    };
    *met = met.saturating_add(1);
    is_next
}

/// Whether the core has the script's epoch, floors and stamps, and three messages are committed.
pub(crate) fn has_script_marks(
    core: &Core,
    book: &Book,
    frames: &[Frame; 3],
    script: &JournalScript,
) -> bool {
    if !core.opened_with(book, frames) {
        return false;
    }
    let (floors, stamps) = (script.floors, script.stamps);
    (core.epoch() == script.epoch)
        & (core.committed() == 3)
        & (core.floor(0) == floors[0])
        & (core.floor(1) == floors[1])
        & (core.floor(2) == floors[2])
        & (core.floor(3) == floors[3])
        & (core.stamp(0) == stamps[0])
        & (core.stamp(1) == stamps[1])
        & (core.stamp(2) == stamps[2])
}

/// Whether this is the reply's action and approval code.
pub(crate) fn is_answer(alloc: Global, reply: &ReplyBody, answer: &str) -> bool {
    match answer_text(alloc, reply) {
        Ok(text) => text.as_str() == answer,
        Err(_) => false,
    }
}

// Whether all three messages are committed, with the script's answers and account.
fn are_committed(alloc: Global, prefix: &Prefix, script: &JournalScript) -> bool {
    prefix.count == 3
        && prefix.replies.len() == 3
        && is_answer(alloc, &prefix.replies[0], script.answers[0])
        && is_answer(alloc, &prefix.replies[1], script.answers[1])
        && is_answer(alloc, &prefix.replies[2], script.answers[2])
        && has_row(&prefix.book, script.account)
}

/// Whether the core committed what the script states.
pub(crate) fn has_committed(alloc: Global, core: Core, script: &JournalScript) -> bool {
    match core.into_prefix(alloc) {
        Ok(prefix) => are_committed(alloc, &prefix, script),
        Err(_) => false,
    }
}
