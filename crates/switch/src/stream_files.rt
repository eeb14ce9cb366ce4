ghost use Rattle.std.specs.Prelude.{◌≡◌, ℕ, List, [], Err, OnOk, OnErr};
ghost use Rattle.file_devices.specs.Failing.{anything};
ghost use Rattle.file_devices.specs.Holding.{AreAsTheyWere, ArePlaced, HasOneNamed, IsAsItWas, IsNoneNamed};

use crate::stream_input::StreamInput;
use crate::stream_output::StreamOutput;
use file_devices::{
    ClaimFault, Files, FromRead, HostClaim, HostFiles, HostOutput, HostReason, ReadFault,
    WriteFault, Written,
};
use std::alloc::{AllocError, Global};
use std::fs::File;
use std::io::{Stdin, Stdout};
use std::rt;

/// The host's files, where the names of standard input and output are these streams, which are read and written where they stand: opened
/// by their names they would be other ones, at their beginning.
#[derive(Drop)]
pub(crate) struct StreamFiles<R> {
    alloc: Global,
    input: Stdin,
    output: Stdout,
    files: HostFiles<R>,
}

impl<R: rt::Files<File = File> + Copy> StreamFiles<R> {
    /// The files of this host, and these streams.
    pub(crate) fn new(host: R, alloc: Global, input: Stdin, output: Stdout) -> StreamFiles<R> {
        StreamFiles {
            alloc,
            input,
            output,
            files: HostFiles::new(host, alloc),
        }
    }

    // The files among what was written. Memory can run out.
    fn files_of(
        &self,
        written: Vec<Written<StreamOutput<HostOutput<R>>>>,
    ) -> Result<Vec<Written<HostOutput<R>>>, AllocError> {
        let mut files = Vec::new(self.alloc);
        for Written { name, output } in written {
            if let Some(output) = output.into_file() {
                files.push(Written { name, output })?;
            }
        }
        Ok(files)
    }
}

impl<R: rt::Files<File = File> + Copy> Files for StreamFiles<R> {
    type Input = StreamInput<FromRead<File>>;

    type Output = StreamOutput<HostOutput<R>>;

    type Claim = HostClaim<R>;

    ghost is_known = { λ _. ⊥ };

    ghost holds = { λ _ _ _. ⊥ };

    ghost failing = { λ _. anything };

    ghost is_alone_on = { λ _ _. Unit {0} };

    ghost is_to_read = { λ _ _. Unit {0} };

    fn open(&self, name: &str) -> Result<StreamInput<FromRead<File>>, ReadFault> {
        if is_input(name) {
            return Ok(StreamInput::standard(self.input));
        }
        Ok(StreamInput::file(self.files.open(name)?))
    }

    fn create(&self, name: &str) -> Result<StreamOutput<HostOutput<R>>, WriteFault> {
        if is_output(name) {
            return Ok(StreamOutput::standard(self.output));
        }
        Ok(StreamOutput::file(self.files.create(name)?))
    }

    fn put_in_place(
        &mut self,
        files: Vec<Written<StreamOutput<HostOutput<R>>>>,
    ) -> Result<(), WriteFault>
        ensures placed { OnOk result (⊥ → ArePlaced (λ _. ⊥) (λ _. []) (λ _ _. ⊥) files.items) }
        ensures kept { OnErr result (AreAsTheyWere (λ _ _. ⊥) (λ _ _. ⊥)) }
        ensures refused { result ≡ Err WriteFault.Unwritable → HasOneNamed (λ _. Unit {0}) files.items }
        ensures known { ⊥ → ⊥ }
        ensures others { (other : List ℕ) → IsNoneNamed other files.items → IsAsItWas (λ _ _. ⊥) (λ _ _. ⊥) other }
    {
        if files.is_empty() {
            return Ok(());
        }
        match self.files_of(files) {
            Ok(files) => self.files.put_in_place(files),
            Err(_) => Err(WriteFault::OutOfMemory),
        }
    }

    fn claim(&self, name: &str) -> Result<HostClaim<R>, ClaimFault> {
        self.files.claim(name)
    }

    fn claim_to_read(&self, name: &str) -> Result<HostClaim<R>, ClaimFault> {
        self.files.claim_to_read(name)
    }

    fn is_one_file(&self, first: &str, second: &str) -> Result<bool, AllocError> {
        self.files.is_one_file(first, second)
    }

    fn open_again(&self, name: &str) -> Result<Option<StreamInput<FromRead<File>>>, HostReason> {
        if is_input(name) {
            return Ok(None);
        }
        Ok(self.files.open_again(name)?.map(StreamInput::file))
    }

    fn why_not_made(&self, name: &str) -> Option<HostReason> {
        if is_output(name) {
            return None;
        }
        self.files.why_not_made(name)
    }
}

/// Whether the name is one of standard input.
pub(crate) fn is_input(name: &str) -> bool {
    name == "/dev/stdin" || name == "/dev/fd/0" || name == "/proc/self/fd/0"
}

// Whether the name is one of standard output.
fn is_output(name: &str) -> bool {
    name == "/dev/stdout" || name == "/dev/fd/1" || name == "/proc/self/fd/1"
}
