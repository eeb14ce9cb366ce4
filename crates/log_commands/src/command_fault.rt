ghost use Rattle.std.specs.Prelude.{◌≡◌};
ghost use Rattle.app_jobs.specs.JobFault.{fault_of_claim, fault_of_write};
ghost use Rattle.app_jobs.specs.declared.job_fault.JobFault.TheVariants as job;
ghost use Rattle.log_commands.specs.CommandFault.{fault_of_open, fault_of_replay};
ghost use Rattle.log_commands.specs.declared.command_fault.CommandFault.TheVariants.{Job};

use app_jobs::JobFault;
use file_devices::{ClaimFault, WriteFault};
use file_laws::{BatchFault, LogFault};
use log_file::OpenFault;
use log_replay::ReplayFault;
use std::alloc::{AllocError, AllocFailed};
use thiserror::Error;

/// Why a command on a log is not done. Its text is what it is of and its number there, as `log 3`, or what is wrong with the words.
#[derive(Debug, Drop, Error)]
pub enum CommandFault {
    /// Names that have to be of two files are of one: which.
    #[error("{0}")]
    Usage(String),
    /// A book or replies are none, or a file can't be read or written, or memory ran out.
    #[error("{0}")]
    Job(JobFault),
    /// The log is none, or can't be read.
    #[error("{0}")]
    Log(LogFault),
}

impl CommandFault {
    ghost use Rattle.log_commands.specs.CommandFault.{status_of};

    /// The exit status: 2 for names that are of one file, else 1.
    pub fn status(&self) -> u8
        ensures { result ≡ status_of self.now }
    {
        match self {
            CommandFault::Usage(_) => 2,
            CommandFault::Job(_) | CommandFault::Log(_) => 1,
        }
    }
}

impl From<JobFault> for CommandFault {
    ghost from_gives = { λ job fault. fault ≡ Job job };

    fn from(fault: JobFault) -> CommandFault {
        CommandFault::Job(fault)
    }
}

impl From<AllocError> for CommandFault {
    ghost from_gives = { λ _ fault. fault ≡ Job job.OutOfMemory };

    fn from(_error: AllocError) -> CommandFault {
        CommandFault::Job(JobFault::OutOfMemory)
    }
}

impl<T: Drop> From<AllocFailed<T>> for CommandFault {
    ghost from_gives = { λ _ fault. fault ≡ Job job.OutOfMemory };

    fn from(_error: AllocFailed<T>) -> CommandFault {
        CommandFault::Job(JobFault::OutOfMemory)
    }
}

impl From<WriteFault> for CommandFault {
    ghost from_gives = { λ write fault. fault ≡ Job (fault_of_write write) };

    fn from(fault: WriteFault) -> CommandFault {
        CommandFault::Job(JobFault::from(fault))
    }
}

impl From<ClaimFault> for CommandFault {
    ghost from_gives = { λ claim fault. fault ≡ Job (fault_of_claim claim) };

    fn from(fault: ClaimFault) -> CommandFault {
        CommandFault::Job(JobFault::from(fault))
    }
}

impl From<OpenFault> for CommandFault {
    ghost from_gives = { λ opening fault. fault ≡ fault_of_open opening };

    fn from(fault: OpenFault) -> CommandFault {
        match fault {
            OpenFault::InUse => CommandFault::Log(LogFault::InUse),
            OpenFault::Refused => CommandFault::Log(LogFault::Failed),
            OpenFault::OutOfMemory => CommandFault::Log(LogFault::OutOfMemory),
        }
    }
}

impl From<ReplayFault> for CommandFault {
    ghost from_gives = { λ replay fault. fault ≡ fault_of_replay replay };

    fn from(fault: ReplayFault) -> CommandFault {
        match fault {
            ReplayFault::Log(fault) => CommandFault::Log(fault),
            ReplayFault::TooMany => CommandFault::Job(JobFault::Batch(BatchFault::Blocks)),
            ReplayFault::Unwritable => CommandFault::Job(JobFault::Unwritable),
            ReplayFault::OutOfMemory => CommandFault::Job(JobFault::OutOfMemory),
        }
    }
}
