ghost use Rattle.std.specs.Prelude.{◌≡◌, map, take, filter_map, IfOk};
ghost use Rattle.stm_core_laws.specs.State.{empty_slot};

use crate::execution_slot::ExecutionSlot;
use issuer_rows::{Frame, ReplyBody};
use std::alloc::{AllocError, Global};

/// A slot for each frame, in which nothing is kept.
pub(crate) fn fresh_slots(alloc: Global, frames: &[Frame]) -> Result<Vec<ExecutionSlot>, AllocError>
    ensures { IfOk result (λ slots. slots.items ≡ map (λ _. empty_slot) frames.now) }
{
    let mut slots = Vec::with_capacity(alloc, frames.len())?;
    for frame in frames {
        slots.push_reserved(ExecutionSlot::new(alloc));
    }
    Ok(slots)
}

/// The replies that are kept in these slots.
pub(crate) fn replies_in(
    alloc: Global,
    slots: &[ExecutionSlot],
) -> Result<Vec<ReplyBody>, AllocError>
    ensures { IfOk result (λ replies. replies.items ≡ filter_map (λ kept. kept.reply) slots.now) }
{
    let mut replies = Vec::with_capacity(alloc, slots.len())?;
    for slot in slots {
        if let Some(reply) = slot.reply() {
            replies.push(reply)?;
        }
    }
    Ok(replies)
}
