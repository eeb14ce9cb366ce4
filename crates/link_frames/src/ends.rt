ghost use Rattle.std.specs.Prelude.{IfOk};
ghost use Rattle.link_frames.specs.Ahead.{IsFresh, HasReadNone};

use crate::ahead::Ahead;
use crate::link::Link;
use crate::reading::Reading;
use crate::signals::Signals;
use rtrb::RingBuffer;
use std::alloc::{AllocError, Global};
use std::sync::Arc;

// How many bytes are read ahead, at most.
const AHEAD: usize = 1_048_576;

// How many bytes are asked for at once.
const PIECE: usize = 65_536;

/// What the thread has that reads a link, and what the one has that serves it. Nothing is read yet. Memory can run out.
pub fn ends_of_link<L: Link, R: Copy>(
    rt: R,
    alloc: Global,
    signals: &Arc<Signals, Global>,
) -> Result<(Reading<L>, Ahead<R, L>), AllocError>
    ensures reading { IfOk result (λ ends. HasReadNone ends.0) }
    ensures fresh { IfOk result (λ ends. IsFresh ends.1) }
{
    let (outbound, inbound) = RingBuffer::with_protocol(alloc, AHEAD)?;
    let (ends, last) = RingBuffer::with_protocol(alloc, 1)?;
    let reading = Reading {
        outbound,
        ends,
        signals: Arc::try_clone(signals)?,
        buffer: vec![in alloc; 0; PIECE]?,
        count: 0,
    };
    let others = Arc::try_clone(signals)?;
    Ok((reading, Ahead::new(rt, inbound, last, others)))
}
