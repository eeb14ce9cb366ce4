ghost use Rattle.std.specs.Prelude.{◌≡◌, ℕ, List, Err, OnOk, OnErr};
ghost use Rattle.file_devices.specs.Holding.{AreAsTheyWere, ArePlaced, HasOneNamed, IsAsItWas, IsNoneNamed};

use crate::progress::Progress;
use crate::progress_file::ProgressFile;
use file_devices::{ClaimFault, Files, HostReason, ReadFault, WriteFault, Written};
use std::alloc::AllocError;

/// Files that tell how far they are read.
#[derive(Drop)]
pub(crate) struct ProgressFiles<F, P> {
    files: F,
    progress: Option<P>,
}

impl<F: Files, P: Progress> ProgressFiles<F, P> {
    /// These files. Without a place to tell it, nothing is told.
    pub(crate) fn new(files: F, progress: Option<P>) -> ProgressFiles<F, P>
        ensures files { result.files ≡ files }
    {
        ProgressFiles { files, progress }
    }
}

impl<F: Files, P: Progress> Files for ProgressFiles<F, P> {
    type Input = ProgressFile<F::Input, P>;

    type Output = F::Output;

    type Claim = F::Claim;

    ghost is_known = { λ all. F.is_known all.files };

    ghost holds = { λ all. F.holds all.files };

    ghost failing = { λ all. F.failing all.files };

    ghost is_alone_on = { F.is_alone_on };

    ghost is_to_read = { F.is_to_read };

    fn open(&self, name: &str) -> Result<ProgressFile<F::Input, P>, ReadFault> {
        let input = self.files.open(name)?;
        Ok(ProgressFile::new(input, self.progress, name))
    }

    fn create(&self, name: &str) -> Result<F::Output, WriteFault> {
        self.files.create(name)
    }

    fn put_in_place(&mut self, files: Vec<Written<F::Output>>) -> Result<(), WriteFault>
        ensures placed { OnOk result (F.is_known self.old.files → ArePlaced F.Output.is_known F.Output.written (F.holds self.new.files) files.items) }
        ensures kept { OnErr result (AreAsTheyWere (F.holds self.old.files) (F.holds self.new.files)) }
        ensures refused { result ≡ Err WriteFault.Unwritable → HasOneNamed (F.failing self.old.files).refused files.items }
        ensures known { F.is_known self.old.files → F.is_known self.new.files }
        ensures others { (other : List ℕ) → IsNoneNamed other files.items → IsAsItWas (F.holds self.old.files) (F.holds self.new.files) other }
    {
        self.files.put_in_place(files)
    }

    fn claim(&self, name: &str) -> Result<F::Claim, ClaimFault> {
        self.files.claim(name)
    }

    fn claim_to_read(&self, name: &str) -> Result<F::Claim, ClaimFault> {
        self.files.claim_to_read(name)
    }

    fn is_one_file(&self, first: &str, second: &str) -> Result<bool, AllocError> {
        self.files.is_one_file(first, second)
    }

    fn open_again(&self, name: &str) -> Result<Option<ProgressFile<F::Input, P>>, HostReason> {
        match self.files.open_again(name) {
            Ok(Some(input)) => Ok(Some(ProgressFile::new(input, None, name))),
            Ok(None) => Ok(None),
            Err(reason) => Err(reason),
        }
    }

    fn why_not_made(&self, name: &str) -> Option<HostReason> {
        self.files.why_not_made(name)
    }
}
