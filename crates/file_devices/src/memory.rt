ghost use Rattle.std.specs.Prelude.{◌≡◌, ◌≢◌, ℕ, List, Some, None, Err, IsSome, OnOk, OnErr, IfOk, option_map};
ghost use Rattle.file_devices.specs.Failing.{writing_alone};
ghost use Rattle.file_devices.specs.Held.{HeldBy, IsMemory, held, written_to};
ghost use Rattle.file_devices.specs.Holding.{AreAsTheyWere, ArePlaced, HasOneNamed, IsAsItWas, IsNoneNamed};

use crate::claim_fault::ClaimFault;
use crate::files::Files;
use crate::host_reason::HostReason;
use crate::memory_input::MemoryInput;
use crate::read_fault::ReadFault;
use crate::sink::IntoWrite;
use crate::write_fault::WriteFault;
use crate::written::Written;
use std::alloc::{AllocError, Global};
use std::collections::BTreeMap;

/// Files that are kept in memory. A call fails where a file that has no such name is to be read, or memory runs out. A file that is there
/// is read by calls of which none fails.
#[derive(Drop)]
pub struct MemoryFiles {
    alloc: Global,
    files: BTreeMap<String, Vec<u8>>,
}

impl MemoryFiles {
    /// No files yet.
    pub fn new(alloc: Global) -> MemoryFiles
        ensures { (name : List ℕ) → held result.files name ≡ None }
    {
        MemoryFiles {
            alloc,
            files: BTreeMap::new(alloc),
        }
    }

    /// What the file of this name holds.
    pub fn get(&self, name: &str) -> Option<&[u8]>
        ensures { option_map (λ bytes. bytes.now) result ≡ held self.now.files name.now }
    {
        self.files.get(name).map(|bytes| bytes.as_slice())
    }

    /// Keeps a file of these bytes under the name, and returns what the one held that was there. It fails only where memory runs out, and
    /// all files are then as they were.
    pub fn put(&mut self, name: &str, bytes: Vec<u8>) -> Result<Option<Vec<u8>>, AllocError>
        ensures ok { OnOk result (held self.new.files name.now ≡ Some bytes.items) }
        ensures before { IfOk result (λ before. option_map (λ held. held.items) before ≡ held self.old.files name.now) }
        ensures err { OnErr result ((other : List ℕ) → held self.new.files other ≡ held self.old.files other) }
        ensures others { (other : List ℕ) → other ≢ name.now → held self.new.files other ≡ held self.old.files other }
    {
        let name = String::from_str(self.alloc, name)?;
        match self.files.insert(name, bytes) {
            Ok(before) => Ok(before),
            Err(_) => Err(AllocError),
        }
    }

    /// Takes all files away.
    pub fn clear(&mut self)
        ensures { (name : List ℕ) → held self.new.files name ≡ None }
    {
        self.files = BTreeMap::new(self.alloc);
    }

    // Puts back what a file held, or that there was none.
    fn put_back(&mut self, name: &str, before: Option<Vec<u8>>)
        requires there { IsSome (held self.old.files name.now) }
        ensures back { held self.new.files name.now ≡ option_map (λ bytes. bytes.items) before }
        ensures others { (other : List ℕ) → other ≢ name.now → held self.new.files other ≡ held self.old.files other }
    {
        match before {
            None => {
                self.files.remove(name);
            }
            Some(bytes) => {
                if let Some(place) = self.files.get_mut(name) {
                    *place = bytes;
                }
            }
        }
    }

    // Keeps these files, one after another: all of them, or none.
    fn put_all(&mut self, mut files: Vec<Written<IntoWrite<Vec<u8>>>>) -> Result<(), AllocError>
        ensures placed { OnOk result (ArePlaced IsMemory written_to (HeldBy self.new.files) files.items) }
        ensures kept { OnErr result ((other : List ℕ) → held self.new.files other ≡ held self.old.files other) }
        ensures others { (other : List ℕ) → IsNoneNamed other files.items → held self.new.files other ≡ held self.old.files other }
    {
        if files.is_empty() {
            return Ok(());
        }
        let Written { name, output } = files.remove(0);
        let before = self.put(name.as_str(), output.into_writer())?;
        match self.put_all(files) {
            Ok(()) => Ok(()),
            Err(error) => {
                self.put_back(name.as_str(), before);
                Err(error)
            }
        }
    }

    fn copied(&self, bytes: &[u8]) -> Result<Vec<u8>, AllocError>
        ensures { IfOk result (λ copy. copy.items ≡ bytes.now) }
    {
        let mut copy = Vec::new(self.alloc);
        copy.extend_from_slice(bytes)?;
        Ok(copy)
    }
}

impl Files for MemoryFiles {
    type Input = MemoryInput;

    type Output = IntoWrite<Vec<u8>>;

    type Claim = ();

    ghost is_known = { λ _. Unit {0} };

    ghost holds = { λ files name bytes. HeldBy files.files name bytes };

    ghost failing = { λ _. writing_alone };

    ghost is_alone_on = { λ _ _. Unit {0} };

    ghost is_to_read = { λ _ _. Unit {0} };

    fn open(&self, name: &str) -> Result<MemoryInput, ReadFault> {
        match self.files.get(name) {
            Some(bytes) => Ok(MemoryInput::new(self.copied(bytes)?)),
            None => Err(ReadFault::Unreadable),
        }
    }

    fn create(&self, _name: &str) -> Result<IntoWrite<Vec<u8>>, WriteFault> {
        Ok(IntoWrite::new(Vec::new(self.alloc)))
    }

    fn put_in_place(&mut self, files: Vec<Written<IntoWrite<Vec<u8>>>>) -> Result<(), WriteFault>
        ensures placed { OnOk result (Unit {0} → ArePlaced IsMemory written_to (HeldBy self.new.files) files.items) }
        ensures kept { OnErr result (AreAsTheyWere (HeldBy self.old.files) (HeldBy self.new.files)) }
        ensures refused { result ≡ Err WriteFault.Unwritable → HasOneNamed (λ _. ⊥) files.items }
        ensures known { Unit {0} → Unit {0} }
        ensures others { (other : List ℕ) → IsNoneNamed other files.items → IsAsItWas (HeldBy self.old.files) (HeldBy self.new.files) other }
    {
        Ok(self.put_all(files)?)
    }

    fn claim(&self, _name: &str) -> Result<(), ClaimFault> {
        Ok(())
    }

    fn claim_to_read(&self, _name: &str) -> Result<(), ClaimFault> {
        Ok(())
    }

    fn is_one_file(&self, first: &str, second: &str) -> Result<bool, AllocError> {
        Ok(first == second)
    }

    fn open_again(&self, name: &str) -> Result<Option<MemoryInput>, HostReason> {
        match self.files.get(name) {
            Some(bytes) => Ok(self.copied(bytes).ok().map(MemoryInput::new)),
            None => Err(HostReason::NotFound),
        }
    }

    fn why_not_made(&self, _name: &str) -> Option<HostReason> {
        None
    }
}
