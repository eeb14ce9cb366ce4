ghost use Rattle.std.specs.Prelude.{◌≡◌};
ghost use Rattle.app_parts.specs.Faults.{status_of};
ghost use Rattle.app_parts.specs.declared.archive_fault.ArchiveFault.TheVariants.{Job};
ghost use Rattle.app_jobs.specs.JobFault.{fault_of_claim, fault_of_write};
ghost use Rattle.app_jobs.specs.declared.job_fault.JobFault.TheVariants.{OutOfMemory};

use app_jobs::JobFault;
use file_devices::{ClaimFault, WriteFault};
use std::alloc::{AllocError, AllocFailed};
use std::error::Error;
use std::fmt;

/// Why a book isn't archived. Its text is what it is of and its number there, as `book 3`, or which names are of one file.
#[derive(Clone, Copy, Debug, PartialEq, Eq)]
pub enum ArchiveFault {
    /// The files that have these two roles in the help are one.
    OneFile(&'static str, &'static str),
    /// The book isn't read, a file isn't written, or memory ran out.
    Job(JobFault),
}

impl ArchiveFault {
    /// The exit status: 2 for names of one file, else 1.
    pub fn status(&self) -> u8
        ensures { result ≡ status_of self.now }
    {
        match self {
            ArchiveFault::OneFile(_, _) => 2,
            ArchiveFault::Job(_) => 1,
        }
    }
}

impl fmt::Display for ArchiveFault {
    fn fmt<W: fmt::Write>(&self, f: &mut fmt::Formatter<W>) -> fmt::Result {
        match self {
            ArchiveFault::OneFile(first, second) => write!(f, "{first} and {second} are one file"),
            ArchiveFault::Job(fault) => fault.fmt(f),
        }
    }
}

impl Error for ArchiveFault {}

impl From<JobFault> for ArchiveFault {
    ghost from_gives = { λ job fault. fault ≡ Job job };

    fn from(fault: JobFault) -> ArchiveFault {
        ArchiveFault::Job(fault)
    }
}

impl From<AllocError> for ArchiveFault {
    ghost from_gives = { λ _ fault. fault ≡ Job OutOfMemory };

    fn from(_error: AllocError) -> ArchiveFault {
        ArchiveFault::Job(JobFault::OutOfMemory)
    }
}

impl<T: Drop> From<AllocFailed<T>> for ArchiveFault {
    ghost from_gives = { λ _ fault. fault ≡ Job OutOfMemory };

    fn from(_error: AllocFailed<T>) -> ArchiveFault {
        ArchiveFault::Job(JobFault::OutOfMemory)
    }
}
