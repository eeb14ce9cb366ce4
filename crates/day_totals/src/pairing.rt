ghost use Rattle.std.specs.Prelude.{◌≡◌, IfOk, length};
ghost use Rattle.day_totals.specs.Totals.{IsDayOf};

use crate::exchange::Exchange;
use issuer_rows::{Frame, ReplyBody};
use std::alloc::{AllocError, Global};

/// The bodies of a batch, each with its reply. It fails only where memory runs out.
pub fn day_of(
    alloc: Global,
    frames: &[Frame],
    replies: &[ReplyBody],
) -> Result<Vec<Exchange>, AllocError>
    requires { length frames.now ≡ length replies.now }
    ensures { IfOk result (λ day. IsDayOf frames.now replies.now day.items) }
{
    let mut day = Vec::with_capacity(alloc, frames.len())?;
    for index in 0..frames.len() {
        let (frame, reply) = (frames[index], replies[index]);
        day.push(Exchange { frame, reply })?;
    }
    Ok(day)
}
