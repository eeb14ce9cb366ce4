ghost use Rattle.std.specs.Prelude.{◌≡◌, ◌≤◌, ◌++◌, ℕ, List, length, drop, Err, IfErr, IsTrue, OnOk};
ghost use Rattle.file_laws.specs.LogFault.{is_of_bytes};
ghost use Rattle.file_laws.specs.LogReading.{IsReading};
ghost use Rattle.file_laws.specs.Texts.{header_text};

use crate::chain::digest_of;
use crate::input::Input;
use crate::log_end::LogEnd;
use crate::log_step::LogStep;
use crate::part::Part;
use crate::part_reading::read_part;
use file_devices::Source;
use file_laws::LogFault;
use std::alloc::Global;

/// A log that is read entry by entry, of which one at a time is held.
#[derive(Drop)]
pub struct LogReader<R> {
    input: Input<R>,
    alloc: Global,
    digest: [u8; 32],
    entries: u64,
    at: u64,
}

impl<R: Source + Drop> LogReader<R> {
    ghost use Rattle.std.specs.Prelude.{◌≡◌, ℕ, List, [], Err, IfOk, IfErr, IsTrue};
    ghost use Rattle.file_laws.specs.LogFault.{is_of_bytes};
    ghost use Rattle.file_laws.specs.LogReading.{IsReading};
    ghost use Rattle.log_file.specs.Device.{UsesFile};
    ghost use Rattle.log_file.specs.Reads.{HasRead, Steps};

    /// Begins to read a log, of the book whose canonical text has this digest. Reads the header. Its faults are `NoLog`, `Version` and
    /// `OtherBook`, `Failed` exactly where a call on the source failed, and `OutOfMemory`.
    pub fn open(alloc: Global, source: R, book: &[u8; 32]) -> Result<LogReader<R>, LogFault>
        ensures failed { IfOk result (λ reader. R.has_failed reader.input.source ≡ R.has_failed source) }
        ensures known { IfOk result (λ reader. R.is_known source → R.is_known reader.input.source) }
        ensures still { IfOk result (λ reader. R.may_fail reader.input.source → R.may_fail source) }
        ensures may { IfErr result (λ e. e ≡ LogFault.Failed → R.may_fail source) }
        ensures read { IfOk result (λ reader. R.is_known source → HasRead R.remaining book.now (R.remaining source) [] reader) }
        ensures fault { IfErr result (λ e. IsTrue (is_of_bytes e) → R.is_known source → IsReading book.now (R.remaining source) (Err e)) }
    {
        let mut input = Input::new(alloc, source)?;
        if !input.fill(38)? {
            return Err(LogFault::NoLog);
        }
        check_header(input.held(), book)?;
        input.skip(38);
        let digest = digest_of(b"I83L\x00\x01", book);
        Ok(LogReader {
            input,
            alloc,
            digest,
            entries: 0,
            at: 38,
        })
    }

    /// Reads the next entry; or finds that the log ends, with what is left as its torn tail. `Broken` with the number of entries that
    /// were read where neither stands there, `Failed` exactly where a call on the source failed, and `OutOfMemory`. After a fault or the
    /// end it is of no more use.
    pub fn next(&mut self) -> Result<LogStep, LogFault>
        ensures file { UsesFile R.is_known R.has_failed R.may_fail self.old.input.source self.new.input.source result }
        ensures read { R.is_known self.old.input.source → (book bytes : List ℕ) (entries : List (List (List ℕ)))
            → HasRead R.remaining book bytes entries self.old → IfOk result (λ step. Steps R.remaining book bytes entries step self.new) }
        ensures fault { R.is_known self.old.input.source → (book bytes : List ℕ) (entries : List (List (List ℕ)))
            → HasRead R.remaining book bytes entries self.old → IfErr result (λ e. IsTrue (is_of_bytes e) → IsReading book bytes (Err e)) }
    {
        match read_part(self.alloc, &mut self.input, &self.digest)? {
            Part::Entry(entry) => {
                let (Some(at), Some(entries)) = (
                    self.at.checked_add(entry.size),
                    self.entries.checked_add(1),
                ) else {
                    // No memory can hold so many bytes.
                    return Err(LogFault::OutOfMemory);
                };
                let digest = entry.digest;
                self.at = at;
                self.entries = entries;
                self.digest = digest;
                Ok(LogStep::Entry(entry.bodies))
            }
            Part::Torn(tail) => {
                let digest = self.digest;
                Ok(LogStep::End(LogEnd {
                    at: self.at,
                    digest,
                    entries: self.entries,
                    tail,
                }))
            }
            Part::Broken => Err(LogFault::Broken(self.entries)),
        }
    }
}

// Whether the bytes begin with the header of a log of this book, whose text has this digest.
fn check_header(bytes: &[u8], book: &[u8; 32]) -> Result<(), LogFault>
    requires { 38 ≤ length bytes.now }
    ensures ok { OnOk result (bytes.now ≡ header_text book.now ++ drop 38 bytes.now) }
    ensures of_bytes { IfErr result (λ e. IsTrue (is_of_bytes e)) }
    ensures fault { IfErr result (λ e. (more : List ℕ) → IsReading book.now (bytes.now ++ more) (Err e)) }
{
    let (letters, rest) = bytes.split_at(4);
    if letters != b"I83L".as_slice() {
        return Err(LogFault::NoLog);
    }
    let (version, rest) = rest.split_at(2);
    if version != [0, 1].as_slice() {
        return Err(LogFault::Version);
    }
    let (own, _) = rest.split_at(32);
    if own != book.as_slice() {
        return Err(LogFault::OtherBook);
    }
    Ok(())
}
