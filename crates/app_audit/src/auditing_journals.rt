//! Auditing a batch against its journal.

ghost use Rattle.std.specs.Prelude.{◌≡◌, ◌≤◌, ◌⊎◌, Err, ℕ, length, IfOk};
ghost use Rattle.stm_journal_text.specs.Logged.{IsFirstUnlogged, greatest};
ghost use Rattle.stm_core_laws.specs.Play.{opening_play};
ghost use Rattle.app_audit.specs.PlayFinding.{FindsInPlay};

use crate::audited::Audit;
use crate::auditing::compared;
use issuer_rows::{Book, Frame, ReplyBody};
use std::alloc::Global;
use stm_journal::replay;
use stm_journal_text::{Entry, ReplayFault};

/// Whether these are the replies, and this is the book after them, that the journal plays to; else what differs first, as [`audit`] says
/// it. A journal that doesn't commit all bodies has fewer replies. For a journal that can't be played its fault is returned, which is
/// never `Line`.
pub fn audit_journal(
    alloc: Global,
    book: &Book,
    frames: &[Frame],
    entries: &[Entry],
    replies: &[ReplyBody],
    after: &Book,
) -> Result<Audit, ReplayFault>
    requires { length frames.now ≤ 65536 }
    ensures finds { IfOk result (FindsInPlay book.now frames.now entries.now replies.now after.now) }
    ensures unlogged { (n : ℕ) → result ≡ Err (ReplayFault.Unlogged n) → IsFirstUnlogged (opening_play book.now frames.now greatest) entries.now n }
    ensures exact { (n : ℕ) → IsFirstUnlogged (opening_play book.now frames.now greatest) entries.now n → (result ≡ Err (ReplayFault.Unlogged n)) ⊎ (result ≡ Err ReplayFault.OutOfMemory) }
    ensures lines { (n : ℕ) → ¬ (result ≡ Err (ReplayFault.Line n)) }
{
    let core = match replay(alloc, book, frames, entries) {
        Ok(core) => core,
        Err(fault) => return Err(fault),
    };
    let prefix = core.into_prefix(alloc)?;
    if prefix.count as usize != frames.len() {
        return Ok(Audit::CountDiffers);
    }
    match compared(alloc, replies, after, &prefix) {
        Ok(found) => Ok(found),
        Err(_) => Err(ReplayFault::OutOfMemory),
    }
}
