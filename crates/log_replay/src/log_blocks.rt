ghost use Rattle.std.specs.Prelude.{◌≡◌, ◌≤◌, ℕ, List, IfErr, IfOk, OnOk, length, map};
ghost use Rattle.issuer_rows.specs.declared.frame.Frame.{Frame};
ghost use Rattle.log_replay.specs.Blocks.{AreBlocksOf};
ghost use Rattle.log_replay.specs.Faults.{IsReplayFault};
ghost use Rattle.log_replay.specs.Gathering.{GathersLog};
ghost use Rattle.log_replay.specs.Logged.{HasSize, IsLogOfMessages, IsLogOfSize};
ghost use Rattle.log_replay.specs.UnderWay.{Begins};

use crate::gathering::Gathering;
use crate::log_size::LogSize;
use crate::replay_fault::ReplayFault;
use file_devices::Source;
use issuer_rows::Frame;
use log_file::{LogFault, LogReader, LogStep};
use std::alloc::Global;

/// The messages of a log, in blocks of 65,536, of which the last one may be shorter. The log was measured before; that it has another
/// size now is a failed call.
pub fn read_log_blocks<R: Source + Drop>(
    alloc: Global,
    source: R,
    digest: &[u8; 32],
    size: LogSize,
) -> Result<Vec<Vec<Frame>>, ReplayFault>
    requires few { size.messages ≤ 65536000 }
    ensures blocks { IfOk result (λ blocks. (messages : List Frame) × AreBlocksOf messages (map (λ block. block.items) blocks.items)
        × (R.is_known source → IsLogOfMessages digest.now (R.remaining source) messages)) }
    ensures count { IfOk result (λ blocks. length blocks.items ≤ 1000) }
    ensures fault { IfErr result (IsReplayFault (R.is_known source) (R.may_fail source) digest.now (R.remaining source)
        (R.is_known source → ¬ HasSize digest.now (R.remaining source) size) ⊥) }
{
    let reader = LogReader::open(alloc, source, digest)?;
    let mut gathering = Gathering::new(alloc);
    gather_log(alloc, reader, size.messages, &mut gathering)?;
    Ok(gathering.into_blocks(alloc)?)
}

// Gathers the messages of a log, which has to have so many.
fn gather_log<R: Source + Drop>(
    alloc: Global,
    reader: LogReader<R>,
    messages: u32,
    gathering: &mut Gathering,
) -> Result<(), ReplayFault>
    ensures gathers { OnOk result (GathersLog R.is_known R.remaining reader gathering.old gathering.new messages) }
    ensures fault { (digest bytes : List ℕ) → length digest ≡ 32
        → IfErr result (IsReplayFault (Begins R.is_known R.remaining digest bytes reader) (R.may_fail reader.input.source) digest bytes
        (Begins R.is_known R.remaining digest bytes reader → (torn : ℕ) → ¬ IsLogOfSize digest bytes messages torn) ⊥) }
{
    let mut reader = reader;
    let mut taken: u32 = 0;
    for _ in 0..u64::MAX {
        match reader.next()? {
            LogStep::Entry(bodies) => {
                let count = bodies.len();
                if count > messages - taken {
                    return Err(ReplayFault::Log(LogFault::Failed));
                }
                gathering.take_bodies(alloc, &bodies)?;
                taken += count;
            }
            LogStep::End(_) => {
                if taken < messages {
                    return Err(ReplayFault::Log(LogFault::Failed));
                }
                return Ok(());
            }
        }
    }
    // No disk can hold so many entries.
    Err(ReplayFault::OutOfMemory)
}
