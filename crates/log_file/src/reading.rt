use crate::bodies::Bodies;
use crate::log_end::LogEnd;
use crate::log_reader::LogReader;
use crate::log_step::LogStep;
use file_devices::Source;
use file_laws::LogFault;
use std::alloc::Global;

/// A log that was read whole.
#[derive(Drop)]
pub struct WholeLog {
    /// The bodies of each entry.
    pub entries: Vec<Bodies>,
    /// Where they end, and what stands behind them.
    pub end: LogEnd,
}

ghost use Rattle.std.specs.Prelude.{◌≡◌, ℕ, List, Err, IfOk, IfErr, IsTrue};
ghost use Rattle.file_laws.specs.LogFault.{is_of_bytes};
ghost use Rattle.file_laws.specs.LogReading.{IsLogOf, IsReading};
ghost use Rattle.log_file.specs.Reads.{EndsAs};

/// Reads a log whole, of the book whose canonical text has this digest: its entries and its torn tail, or the fault. `Failed` only where
/// a call on the source failed; and memory can run out.
pub fn read_log<R: Source + Drop>(
    alloc: Global,
    source: R,
    book: &[u8; 32],
) -> Result<WholeLog, LogFault>
    ensures read { R.is_known source → IfOk result (λ log. (tail : List ℕ) × IsLogOf book.now (R.remaining source) log.entries.items tail
        × EndsAs book.now log.entries.items tail log.end) }
    ensures fault { R.is_known source → IfErr result (λ e. IsTrue (is_of_bytes e) → IsReading book.now (R.remaining source) (Err e)) }
    ensures may { IfErr result (λ e. e ≡ LogFault.Failed → R.may_fail source) }
{
    let mut reader = LogReader::open(alloc, source, book)?;
    let mut entries = Vec::new(alloc);
    for _ in 0..u64::MAX {
        match reader.next()? {
            LogStep::Entry(bodies) => entries.push(bodies)?,
            LogStep::End(end) => return Ok(WholeLog { entries, end }),
        }
    }
    // No memory can hold so many entries.
    Err(LogFault::OutOfMemory)
}
