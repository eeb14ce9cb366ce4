ghost use Rattle.std.specs.Prelude.{◌≡◌, ◌<◌, ℕ, List, [], length, Err, OnOk, OnErr};
ghost use Rattle.file_devices.specs.Failing.{anything};
ghost use Rattle.file_devices.specs.Holding.{AreAsTheyWere, ArePlaced, HasOneNamed, IsAsItWas, IsNoneNamed};

use crate::claim_fault::ClaimFault;
use crate::files::Files;
use crate::host::claim::HostClaim;
use crate::host::identity::FileIdentity;
use crate::host::output::HostOutput;
use crate::host::target::HostTarget;
use crate::host_reason::HostReason;
use crate::read_fault::ReadFault;
use crate::source::FromRead;
use crate::write_fault::WriteFault;
use crate::written::Written;
use std::alloc::{AllocError, Global};
use std::fs::File;
use std::io::ErrorKind;
use std::{fs, io, rt};

/// The host's files. What they hold is not known.
#[derive(Drop)]
pub struct HostFiles<R> {
    host: R,
    alloc: Global,
}

impl<R: rt::Files<File = File> + Copy> HostFiles<R> {
    /// The files of this host.
    pub fn new(host: R, alloc: Global) -> HostFiles<R> {
        HostFiles { host, alloc }
    }

    // Opens a file that is no folder.
    fn open_file(&self, name: &str) -> io::Result<File> {
        let file = fs::open(&self.host, name)?;
        if file.metadata()?.is_dir() {
            return Err(io::Error::from(ErrorKind::IsADirectory));
        }
        Ok(file)
    }

    // Opens a plain file once more, and nothing else: a device might wait, or have given its bytes already.
    fn open_plain(&self, name: &str) -> io::Result<Option<File>> {
        let metadata = fs::metadata(&self.host, name)?;
        if !metadata.is_file() && !metadata.is_dir() {
            return Ok(None);
        }
        Ok(Some(self.open_file(name)?))
    }

    // Makes a file that is gone when this returns, unless the name is a device's.
    fn try_making(&self, name: &str) -> io::Result<()> {
        match HostTarget::of(&self.host, self.alloc, name)? {
            HostTarget::Device => Ok(()),
            _ => {
                HostOutput::create(self.host, self.alloc, name)?;
                Ok(())
            }
        }
    }

    // Syncs what was written, and then renames each to its target, whose folder is synced before the next one is renamed.
    fn place(&self, files: &mut [Written<HostOutput<R>>]) -> io::Result<()>
        ensures { OnErr result (0 < length files.old) }
    {
        if files.is_empty() {
            return Ok(());
        }
        for file in files.iter() {
            file.output.sync()?;
        }
        for file in files.iter_mut() {
            file.output.put_in_place()?;
            file.output.sync_folder(&self.host)?;
        }
        Ok(())
    }

    // Claims a file alone, or to read it.
    fn lock(&self, name: &str, is_shared: bool) -> Result<HostClaim<R>, ClaimFault> {
        match HostClaim::new(self.host, self.alloc, name, is_shared) {
            Ok(Some(claim)) => Ok(claim),
            Ok(None) => Err(ClaimFault::InUse),
            Err(_) => Err(ClaimFault::OutOfMemory),
        }
    }

    // Whether both names are one file's, where that can be found out.
    fn is_same(&self, first: &str, second: &str) -> io::Result<Option<bool>> {
        let first = FileIdentity::of(&self.host, self.alloc, first)?;
        let second = FileIdentity::of(&self.host, self.alloc, second)?;
        Ok(first.is_same(&second))
    }
}

impl<R: rt::Files<File = File> + Copy> Files for HostFiles<R> {
    type Input = FromRead<File>;

    type Output = HostOutput<R>;

    type Claim = HostClaim<R>;

    ghost is_known = { λ _. ⊥ };

    ghost holds = { λ _ _ _. ⊥ };

    ghost failing = { λ _. anything };

    ghost is_alone_on = { λ _ _. Unit {0} };

    ghost is_to_read = { λ _ _. Unit {0} };

    fn open(&self, name: &str) -> Result<FromRead<File>, ReadFault> {
        match self.open_file(name) {
            Ok(file) => Ok(FromRead::new(file)),
            Err(error) => Err(unopened(&error)),
        }
    }

    fn create(&self, name: &str) -> Result<HostOutput<R>, WriteFault> {
        match HostOutput::create(self.host, self.alloc, name) {
            Ok(output) => Ok(output),
            Err(error) => Err(unwritten(&error)),
        }
    }

    fn put_in_place(&mut self, mut files: Vec<Written<HostOutput<R>>>) -> Result<(), WriteFault>
        ensures placed { OnOk result (⊥ → ArePlaced (λ _. ⊥) (λ _. []) (λ _ _. ⊥) files.items) }
        ensures kept { OnErr result (AreAsTheyWere (λ _ _. ⊥) (λ _ _. ⊥)) }
        ensures refused { result ≡ Err WriteFault.Unwritable → HasOneNamed (λ _. Unit {0}) files.items }
        ensures known { ⊥ → ⊥ }
        ensures others { (other : List ℕ) → IsNoneNamed other files.items → IsAsItWas (λ _ _. ⊥) (λ _ _. ⊥) other }
    {
        match self.place(files.as_mut_slice()) {
            Ok(()) => Ok(()),
            Err(error) => Err(unwritten(&error)),
        }
    }

    fn claim(&self, name: &str) -> Result<HostClaim<R>, ClaimFault> {
        self.lock(name, false)
    }

    fn claim_to_read(&self, name: &str) -> Result<HostClaim<R>, ClaimFault> {
        self.lock(name, true)
    }

    // Equal words are one file where nothing else can be found out. Devices may be named twice.
    fn is_one_file(&self, first: &str, second: &str) -> Result<bool, AllocError> {
        match self.is_same(first, second) {
            Ok(Some(same)) => Ok(same),
            Ok(None) => Ok(first == second),
            Err(_) => Err(AllocError),
        }
    }

    fn open_again(&self, name: &str) -> Result<Option<FromRead<File>>, HostReason> {
        match self.open_plain(name) {
            Ok(file) => Ok(file.map(FromRead::new)),
            Err(error) if error.kind() == ErrorKind::OutOfMemory => Ok(None),
            Err(error) => Err(HostReason::from(error.kind())),
        }
    }

    fn why_not_made(&self, name: &str) -> Option<HostReason> {
        match self.try_making(name) {
            Ok(()) => None,
            Err(error) if error.kind() == ErrorKind::OutOfMemory => None,
            Err(error) => Some(HostReason::from(error.kind())),
        }
    }
}

// Why a file is not opened.
fn unopened(error: &io::Error) -> ReadFault {
    match error.kind() {
        ErrorKind::OutOfMemory => ReadFault::OutOfMemory,
        _ => ReadFault::Unreadable,
    }
}

// Why a file is not made or written.
fn unwritten(error: &io::Error) -> WriteFault {
    match error.kind() {
        ErrorKind::OutOfMemory => WriteFault::OutOfMemory,
        _ => WriteFault::Unwritable,
    }
}
