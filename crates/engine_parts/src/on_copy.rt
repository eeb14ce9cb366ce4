ghost use Rattle.std.specs.Prelude.{◌≡◌, ◌≤◌, length, IfOk};
ghost use Rattle.engine_parts.specs.Decided.{bodies_of};
ghost use Rattle.issuer_words.specs.Words.{replies_to, rows_after};

use crate::decided_part::NEW_ROWS;
use crate::gathering::gather;
use issuer_fold::Prefix;
use issuer_rows::{Book, Frame};
use issuer_view::Decide;
use std::alloc::{AllocError, Global};

/// Decides the messages of a part in their order, on a copy of the opening book, with room for the rows of all parts. It fails only
/// where memory runs out.
pub(crate) fn decide_on_copy<F: Decide>(
    alloc: Global,
    opening: &Book,
    frames: &[Frame],
    parts: &[u32],
    part: usize,
    decision: &F,
) -> Result<Prefix, AllocError>
    requires each { length parts.now ≡ length frames.now }
    requires few { length frames.now ≤ 65536 }
    ensures replies { IfOk result (λ prefix. prefix.replies.items ≡ replies_to opening.now (bodies_of part parts.now frames.now)) }
    ensures book { IfOk result (λ prefix. prefix.book ≡ rows_after opening.now (bodies_of part parts.now frames.now)) }
{
    let own = gather(alloc, frames, parts, part)?;
    let mut prefix = Prefix::new(alloc, opening.copy()?);
    prefix.make_ready(frames.len().saturating_mul(NEW_ROWS))?;
    prefix.decide_each(alloc, &own, decision)?;
    Ok(prefix)
}
