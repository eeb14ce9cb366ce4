ghost use Rattle.std.specs.Prelude.{◌≡◌, ◌<◌, ◌≤◌, ◌+◌, ◌*◌, ℕ, List, IfErr, IfOk, OnOk, length};
ghost use Rattle.log_replay.specs.Answering.{IsCounted, taken};
ghost use Rattle.log_replay.specs.Faults.{IsReplayFault};
ghost use Rattle.log_replay.specs.Logged.{HasSize, IsLogOfSize};
ghost use Rattle.log_replay.specs.Replayed.{IsReplayed};
ghost use Rattle.log_replay.specs.UnderWay.{Begins, TakesLog};

use crate::answering::Answering;
use crate::block_writing::write_head;
use crate::log_size::LogSize;
use crate::replay_fault::ReplayFault;
use crate::replayed::Replayed;
use file_devices::{Sink, Source};
use issuer_rows::Book;
use issuer_view::Decide;
use log_file::{LogFault, LogReader, LogStep};
use std::alloc::Global;

/// Decides the messages of a log again, one after another, by any local decision, on the opening book of the log, which has this digest.
/// Writes their replies, in blocks of 65,536, and returns the book after them. The log was measured before; that it has another size now
/// is a failed call. One block at a time is held.
pub fn replay_log<R: Source + Drop, W: Sink, D: Decide>(
    alloc: Global,
    source: R,
    digest: &[u8; 32],
    size: LogSize,
    book: Book,
    sink: &mut W,
    decision: &D,
) -> Result<Replayed, ReplayFault>
    requires few { size.messages ≤ 65536000 }
    ensures known { W.is_known sink.old → W.is_known sink.new }
    ensures replayed { IfOk result (IsReplayed (R.is_known source) digest.now (R.remaining source) book
        (W.is_known sink.old) (W.written sink.old) (W.written sink.new)) }
    ensures fault { IfErr result (IsReplayFault (R.is_known source) (R.may_fail source) digest.now (R.remaining source)
        (R.is_known source → ¬ HasSize digest.now (R.remaining source) size) (W.may_fail sink.old)) }
{
    let reader = LogReader::open(alloc, source, digest)?;
    write_head(alloc, blocks_of(size.messages), sink)?;
    let mut answering = Answering::new(alloc, book);
    take_log(alloc, reader, size.messages, &mut answering, sink, decision)?;
    answering.finish(alloc, sink, decision)?;
    Ok(Replayed {
        count: answering.count,
        book: answering.prefix.book,
    })
}

// How many blocks so many messages make.
fn blocks_of(messages: u32) -> u32
    requires { messages ≤ 65536000 }
    ensures all { messages ≤ result * 65536 }
    ensures last { result * 65536 < messages + 65536 }
{
    (messages + 65_535) / 65_536
}

// Takes the messages of a log, which has to have so many.
fn take_log<R: Source + Drop, W: Sink, D: Decide>(
    alloc: Global,
    reader: LogReader<R>,
    messages: u32,
    answering: &mut Answering,
    sink: &mut W,
    decision: &D,
) -> Result<(), ReplayFault>
    requires few { messages ≤ 65536000 }
    requires none { taken answering.old ≡ 0 }
    requires counted { IsCounted answering.old }
    ensures known { W.is_known sink.old → W.is_known sink.new }
    ensures may { W.may_fail sink.new → W.may_fail sink.old }
    ensures takes { OnOk result (TakesLog R.is_known R.remaining reader answering.old answering.new
        (W.is_known sink.old) (W.written sink.old) (W.written sink.new)) }
    ensures all { OnOk result (taken answering.new ≡ messages) }
    ensures counted { OnOk result (IsCounted answering.new) }
    ensures fault { (digest bytes : List ℕ) → length digest ≡ 32
        → IfErr result (IsReplayFault (Begins R.is_known R.remaining digest bytes reader) (R.may_fail reader.input.source) digest bytes
        (Begins R.is_known R.remaining digest bytes reader → (torn : ℕ) → ¬ IsLogOfSize digest bytes messages torn) (W.may_fail sink.old)) }
{
    let mut reader = reader;
    for _ in 0..u64::MAX {
        match reader.next()? {
            LogStep::Entry(bodies) => {
                if bodies.len() > messages - answering.taken() {
                    return Err(ReplayFault::Log(LogFault::Failed));
                }
                answering.take_bodies(alloc, &bodies, sink, decision)?;
            }
            LogStep::End(_) => {
                if answering.taken() < messages {
                    return Err(ReplayFault::Log(LogFault::Failed));
                }
                return Ok(());
            }
        }
    }
    // No disk can hold so many entries.
    Err(ReplayFault::OutOfMemory)
}
