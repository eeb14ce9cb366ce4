ghost use Rattle.std.specs.Prelude.{◌≡◌};
ghost use Rattle.app_jobs.specs.declared.job_fault.JobFault.TheVariants.{OutOfMemory};
ghost use Rattle.app_parts_folder.specs.Faults.{status_of};
ghost use Rattle.app_parts_folder.specs.declared.parts_fault.PartsFault.TheVariants.{Job};

use crate::part_fault::PartFault;
use app_jobs::JobFault;
use std::alloc::{AllocError, AllocFailed};
use std::error::Error;
use std::fmt;

/// Why a command on parts isn't done. Its text is what it is of and its number there, as `book 3` or `part 7: 4`, or which names are of
/// one file.
#[derive(Clone, Copy, Debug, PartialEq, Eq)]
pub enum PartsFault {
    /// The files that have these two roles in the help are one.
    OneFile(&'static str, &'static str),
    /// A book, a batch or replies are none, a file isn't read or written, or memory ran out.
    Job(JobFault),
    /// The folder's plan is none.
    NoPlan,
    /// The plan has no part of this number.
    NoPart,
    /// The folder's rest isn't that of the plan.
    OtherRest,
    /// The parts haven't as many replies as the plan has messages.
    Replies,
    /// The files of the part of this number aren't taken.
    Part(u32, PartFault),
}

impl PartsFault {
    /// The exit status: 2 for names of one file, else 1.
    pub fn status(&self) -> u8
        ensures { result ≡ status_of self.now }
    {
        match self {
            PartsFault::OneFile(_, _) => 2,
            _ => 1,
        }
    }
}

impl fmt::Display for PartsFault {
    fn fmt<W: fmt::Write>(&self, f: &mut fmt::Formatter<W>) -> fmt::Result {
        match self {
            PartsFault::OneFile(first, second) => write!(f, "{first} and {second} are one file"),
            PartsFault::Job(fault) => fault.fmt(f),
            PartsFault::NoPlan => write!(f, "plan 1"),
            PartsFault::NoPart => write!(f, "plan 2"),
            PartsFault::OtherRest => write!(f, "plan 3"),
            PartsFault::Replies => write!(f, "plan 4"),
            PartsFault::Part(part, fault) => write!(f, "part {part}: {}", fault.number()),
        }
    }
}

impl Error for PartsFault {}

impl From<JobFault> for PartsFault {
    ghost from_gives = { λ job fault. fault ≡ Job job };

    fn from(fault: JobFault) -> PartsFault {
        PartsFault::Job(fault)
    }
}

impl From<AllocError> for PartsFault {
    ghost from_gives = { λ _ fault. fault ≡ Job OutOfMemory };

    fn from(_error: AllocError) -> PartsFault {
        PartsFault::Job(JobFault::OutOfMemory)
    }
}

impl<T: Drop> From<AllocFailed<T>> for PartsFault {
    ghost from_gives = { λ _ fault. fault ≡ Job OutOfMemory };

    fn from(_error: AllocFailed<T>) -> PartsFault {
        PartsFault::Job(JobFault::OutOfMemory)
    }
}
