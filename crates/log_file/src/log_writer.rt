use crate::appending::{cut_and_sync, make_entry, put_and_sync};
use crate::begun::Begun;
use crate::bodies::Bodies;
use crate::chain::digest_of;
use crate::growing_file::GrowingFile;
use crate::log_end::LogEnd;
use crate::synced::Synced;
use crate::unbegun::{is_unbegun, make_header};
use file_laws::LogFault;
use std::alloc::{AllocError, Global};

/// A log that grows by whole entries, each synced before the next one is begun.
#[derive(Drop)]
pub struct LogWriter<G> {
    file: G,
    text: Vec<u8>,
    digest: [u8; 32],
    entries: u64,
    has_failed: bool,
}

impl<G: GrowingFile + Drop> LogWriter<G> {
    ghost use Rattle.std.specs.Prelude.{◌≡◌, ◌⊎◌, ◌∷◌, ◌++◌, ℕ, List, [], true, false, Err, IfOk, IfErr, OnOk, IsTrue};
    ghost use Rattle.file_laws.specs.LogFault.{is_of_bytes};
    ghost use Rattle.file_laws.specs.LogReading.{IsLogOf};
    ghost use Rattle.log_file.specs.Device.{UsesFile};
    ghost use Rattle.log_file.specs.Reads.{EndsAs};
    ghost use Rattle.log_file.specs.Writes.{HasLog, IsBegun, IsCutOff};

    /// Begins the log of the book whose canonical text has this digest, in a file that holds none: nothing, or what a crash left of such
    /// a header. After `New` the header is there, and synced. A file that holds more is given back as it was. `Failed` only where a
    /// call on the file failed; and memory can run out.
    pub fn begin(alloc: Global, file: G, book: &[u8; 32]) -> Result<Begun<G>, LogFault>
        ensures begun { IfOk result (λ begun. IsBegun G.is_known G.synced G.unsynced book.now file begun) }
        ensures may { IfErr result (λ e. e ≡ LogFault.Failed → G.may_fail file) }
        ensures fault { IfErr result (λ e. ¬ IsTrue (is_of_bytes e)) }
    {
        let mut file = file;
        let header = make_header(alloc, book)?;
        if !is_unbegun(alloc, &file, book)? {
            return Ok(Begun::Old(file));
        }
        cut_and_sync(&mut file, 0)?;
        put_and_sync(&mut file, &header)?;
        let digest = digest_of(&header, &[]);
        Ok(Begun::New(LogWriter {
            file,
            text: header,
            digest,
            entries: 0,
            has_failed: false,
        }))
    }

    /// Goes on behind the whole entries of a log that was read up to this end: cuts the torn tail, and syncs what stands before it.
    /// `Failed` only where a call on the file failed.
    pub fn resume(alloc: Global, file: G, end: LogEnd) -> Result<LogWriter<G>, LogFault>
        requires end { G.is_known file → (book : List ℕ) × (entries : List (List (List ℕ))) × (tail : List ℕ)
            × IsLogOf book (G.synced file ++ G.unsynced file) entries tail × EndsAs book entries tail end }
        ensures ok { IfOk result (λ writer. (book : List ℕ) (entries : List (List (List ℕ))) (tail : List ℕ) → G.is_known file
            → IsLogOf book (G.synced file ++ G.unsynced file) entries tail → EndsAs book entries tail end
            → HasLog G.is_known G.synced G.unsynced book entries writer) }
        ensures fresh { IfOk result (λ writer. writer.has_failed ≡ false) }
        ensures may { IfErr result (λ e. e ≡ LogFault.Failed → G.may_fail file) }
        ensures fault { IfErr result (λ e. ¬ IsTrue (is_of_bytes e)) }
    {
        let mut file = file;
        cut_and_sync(&mut file, end.at)?;
        let digest = end.digest;
        Ok(LogWriter {
            file,
            text: Vec::new(alloc),
            digest,
            entries: end.entries,
            has_failed: false,
        })
    }

    /// Writes one entry of these bodies behind the others, and syncs it. After `Failed` the file has some beginning of the entry behind
    /// the others, all of it perhaps, and every later call is `Failed` and does nothing: what the disk holds is not known, and the next
    /// reading finds it. After `OutOfMemory` nothing was written.
    pub fn append<'a>(&mut self, bodies: &'a Bodies) -> Result<Synced<'a>, LogFault>
        ensures bodies { IfOk result (λ synced. (synced.bodies.now ≡ bodies.now) × (synced.number ≡ self.old.entries)) }
        // The log has this entry behind the others, and a crash keeps it.
        ensures synced { (book : List ℕ) (entries : List (List (List ℕ))) → HasLog G.is_known G.synced G.unsynced book entries self.old
            → OnOk result (HasLog G.is_known G.synced G.unsynced book (entries ++ bodies.now ∷ []) self.new) }
        // The log has the others, and a crash keeps them; of this entry some beginning may stand behind them.
        ensures cut_off { (book : List ℕ) (entries : List (List (List ℕ))) → HasLog G.is_known G.synced G.unsynced book entries self.old
            → IfErr result (λ e. IsCutOff G.is_known G.synced G.unsynced book entries bodies.now self.new.file) }
        ensures memory { result ≡ Err LogFault.OutOfMemory → (self.new.file ≡ self.old.file) × (self.new.digest ≡ self.old.digest)
            × (self.new.entries ≡ self.old.entries) × (self.new.has_failed ≡ self.old.has_failed) }
        ensures failed { result ≡ Err LogFault.Failed → self.new.has_failed ≡ true }
        ensures stopped { self.old.has_failed ≡ true → (result ≡ Err LogFault.Failed) × (self.new.file ≡ self.old.file) }
        ensures goes_on { OnOk result (self.new.has_failed ≡ false) }
        ensures fault { IfErr result (λ e. (e ≡ LogFault.Failed) ⊎ (e ≡ LogFault.OutOfMemory)) }
        ensures may { IfErr result (λ e. e ≡ LogFault.Failed → (self.old.has_failed ≡ true) ⊎ G.may_fail self.old.file) }
    {
        if self.has_failed {
            return Err(LogFault::Failed);
        }
        let number = self.entries;
        let Some(entries) = number.checked_add(1) else {
            // No memory can hold so many entries.
            return Err(LogFault::OutOfMemory);
        };
        let digest = make_entry(&mut self.text, &self.digest, bodies)?;
        if let Err(fault) = put_and_sync(&mut self.file, &self.text) {
            self.has_failed = true;
            return Err(fault);
        }
        self.digest = digest;
        self.entries = entries;
        Ok(Synced::new(bodies, number))
    }

    /// Whether a call on its file has failed, so that nothing more is written.
    pub fn has_failed(&self) -> bool
        ensures { result ≡ self.now.has_failed }
    {
        self.has_failed
    }

    /// The file.
    pub fn file(&self) -> &G
        ensures { result.now ≡ self.now.file }
    {
        &self.file
    }
}
