ghost use Rattle.std.specs.Prelude.{◌≡◌};
ghost use Rattle.app_jobs.specs.declared.job_fault.JobFault.TheVariants.{OutOfMemory};
ghost use Rattle.app_reports.specs.Why.{status_of_fault};
ghost use Rattle.app_reports.specs.declared.why_fault.WhyFault.TheVariants.{Job};

use app_jobs::JobFault;
use std::alloc::AllocError;
use std::error::Error;
use std::fmt;

/// Why it isn't said why a message was answered so. Its text is what it is of and its number there, as `batch 3`.
#[derive(Clone, Copy, Debug, PartialEq, Eq)]
pub enum WhyFault {
    /// The book or the batch isn't read, or memory ran out.
    Job(JobFault),
    /// The batch has so many messages, and none at this place.
    Index(usize),
}

impl WhyFault {
    /// The exit status: 1, or 2 where the batch has no such message.
    pub fn status(&self) -> u8
        ensures { result ≡ status_of_fault self.now }
    {
        match self {
            WhyFault::Job(_) => 1,
            WhyFault::Index(_) => 2,
        }
    }
}

impl fmt::Display for WhyFault {
    fn fmt<W: fmt::Write>(&self, f: &mut fmt::Formatter<W>) -> fmt::Result {
        match self {
            WhyFault::Job(fault) => fault.fmt(f),
            WhyFault::Index(count) => write!(f, "index {count}"),
        }
    }
}

impl Error for WhyFault {}

impl From<JobFault> for WhyFault {
    ghost from_gives = { λ job fault. fault ≡ Job job };

    fn from(fault: JobFault) -> WhyFault {
        WhyFault::Job(fault)
    }
}

impl From<AllocError> for WhyFault {
    ghost from_gives = { λ _ fault. fault ≡ Job OutOfMemory };

    fn from(_error: AllocError) -> WhyFault {
        WhyFault::Job(JobFault::OutOfMemory)
    }
}
