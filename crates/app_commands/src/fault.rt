ghost use Rattle.std.specs.Prelude.{◌≡◌};
ghost use Rattle.app_commands.specs.Fault.{fault_of_halt, fault_of_line};
ghost use Rattle.app_commands.specs.declared.fault.Fault.TheVariants.{Job, OutOfMemory};

use app_jobs::{Halt, JobFault};
use app_words::LineFault;
use std::alloc::{AllocError, AllocFailed};
use thiserror::Error;

/// Why the program doesn't do what its words say.
#[derive(Debug, Drop, Error)]
pub enum Fault {
    /// The words are no command: what is wrong with them.
    #[error("{0}")]
    Usage(String),
    /// Memory ran out.
    #[error("memory 1")]
    OutOfMemory,
    /// The files are none that can be decided, or can't be read or written.
    #[error("{0}")]
    Job(JobFault),
    /// Not all blocks are decided: why, and how many of them the new book keeps.
    #[error("{0}\nkept {1}")]
    Halted(JobFault, u32),
}

impl Fault {
    ghost use Rattle.app_commands.specs.Fault.{status_of};

    /// The exit status: 2 for words that are no command, else 1.
    pub fn status(&self) -> u8
        ensures { result ≡ status_of self.now }
    {
        match self {
            Fault::Usage(_) => 2,
            Fault::OutOfMemory | Fault::Job(_) | Fault::Halted(..) => 1,
        }
    }
}

impl From<AllocError> for Fault {
    ghost from_gives = { λ _ fault. fault ≡ OutOfMemory };

    fn from(_error: AllocError) -> Fault {
        Fault::OutOfMemory
    }
}

impl<T: Drop> From<AllocFailed<T>> for Fault {
    ghost from_gives = { λ _ fault. fault ≡ OutOfMemory };

    fn from(_error: AllocFailed<T>) -> Fault {
        Fault::OutOfMemory
    }
}

impl From<LineFault> for Fault {
    ghost from_gives = { λ line fault. fault ≡ fault_of_line line };

    fn from(fault: LineFault) -> Fault {
        match fault {
            LineFault::Usage(text) => Fault::Usage(text),
            LineFault::OutOfMemory => Fault::OutOfMemory,
        }
    }
}

impl From<JobFault> for Fault {
    ghost from_gives = { λ job fault. fault ≡ Job job };

    fn from(fault: JobFault) -> Fault {
        Fault::Job(fault)
    }
}

impl From<Halt> for Fault {
    ghost from_gives = { λ halt fault. fault ≡ fault_of_halt halt };

    fn from(halt: Halt) -> Fault {
        match halt.kept {
            Some(kept) => Fault::Halted(halt.fault, kept),
            None => Fault::Job(halt.fault),
        }
    }
}
