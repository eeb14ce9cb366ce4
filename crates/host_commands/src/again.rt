ghost use Rattle.std.specs.Prelude.{ℕ, List, [], IfOk, IfErr};
ghost use Rattle.log_file.specs.Reads.{HasRead};
ghost use Rattle.host_commands.specs.Again.{IsDecidedAgain};
ghost use Rattle.host_commands.specs.OpeningFault.{IsLogFault};

use crate::opening_fault::OpeningFault;
use file_devices::Source;
use host_serving::Decider;
use issuer_view::Decide;
use log_file::{LogEnd, LogReader, LogStep};
use std::alloc::Global;

/// Decides the messages of a log again, which is read from its first entry on: one entry after another, by any local decision. Returns
/// where the entries end.
pub(crate) fn decide_again<R: Source + Drop, D: Decide>(
    alloc: Global,
    reader: LogReader<R>,
    decider: &mut Decider,
    decision: &D,
) -> Result<LogEnd, OpeningFault>
    ensures again { (digest bytes : List ℕ) → R.is_known reader.input.source → HasRead R.remaining digest bytes [] reader
        → IfOk result (IsDecidedAgain digest bytes decider.old decider.new) }
    ensures fault { (digest bytes : List ℕ)
        → IfErr result (IsLogFault (R.is_known reader.input.source × HasRead R.remaining digest bytes [] reader) digest bytes) }
{
    let mut reader = reader;
    for _ in 0..u64::MAX {
        match reader.next()? {
            LogStep::Entry(bodies) => decider.decide(alloc, &bodies, decision)?,
            LogStep::End(end) => return Ok(end),
        }
    }
    // No disk can hold so many entries.
    Err(OpeningFault::OutOfMemory)
}
