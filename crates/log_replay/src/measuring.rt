ghost use Rattle.std.specs.Prelude.{◌≤◌, IfErr, IfOk};
ghost use Rattle.log_replay.specs.Faults.{IsMeasuringFault};
ghost use Rattle.log_replay.specs.Logged.{HasSize};

use crate::log_size::LogSize;
use crate::replay_fault::ReplayFault;
use file_devices::Source;
use log_file::{LogReader, LogStep};
use std::alloc::Global;

// How many messages there are, at most, whose replies a file of blocks can have: 1,000 blocks of 65,536.
const MOST: u64 = 65_536_000;

/// How many messages a log has, of the book that has this digest, and how many bytes its torn tail. It is read to its end, entry by
/// entry; nothing of it is kept.
pub fn measure_log<R: Source + Drop>(
    alloc: Global,
    source: R,
    digest: &[u8; 32],
) -> Result<LogSize, ReplayFault>
    ensures size { R.is_known source → IfOk result (HasSize digest.now (R.remaining source)) }
    ensures few { IfOk result (λ size. size.messages ≤ 65536000) }
    ensures fault { IfErr result (IsMeasuringFault (R.is_known source) (R.may_fail source) digest.now (R.remaining source)) }
{
    let mut reader = LogReader::open(alloc, source, digest)?;
    let mut messages: u64 = 0;
    for _ in 0..u64::MAX {
        match reader.next()? {
            LogStep::Entry(bodies) => {
                let Some(more) = messages.checked_add(u64::from(bodies.len())) else {
                    return Err(ReplayFault::OutOfMemory);
                };
                messages = more;
            }
            LogStep::End(end) => {
                if messages > MOST {
                    return Err(ReplayFault::TooMany);
                }
                return Ok(LogSize {
                    messages: messages as u32,
                    torn: end.tail(),
                });
            }
        }
    }
    // No disk can hold so many entries.
    Err(ReplayFault::OutOfMemory)
}
