ghost use Rattle.std.specs.Prelude.{◌≡◌};
ghost use Rattle.app_jobs.specs.declared.job_fault.JobFault.TheVariants.{OutOfMemory};
ghost use Rattle.app_reports.specs.Report.{status_of_fault};
ghost use Rattle.app_reports.specs.declared.report_fault.ReportFault.TheVariants.{Job};

use app_jobs::JobFault;
use std::alloc::AllocError;
use std::error::Error;
use std::fmt;

/// Why it isn't said how a day went. Its text is what it is of and its number there, as `batch 3`.
#[derive(Clone, Copy, Debug, PartialEq, Eq)]
pub enum ReportFault {
    /// The batch or the replies aren't read, or memory ran out.
    Job(JobFault),
    /// There are so many replies, and another number of bodies.
    Replies(usize),
    /// The page's file is the one that has this role in the help.
    OneFile(&'static str),
}

impl ReportFault {
    /// The exit status: 1, or 2 where the page would be written over the batch or the replies.
    pub fn status(&self) -> u8
        ensures { result ≡ status_of_fault self.now }
    {
        match self {
            ReportFault::Job(_) | ReportFault::Replies(_) => 1,
            ReportFault::OneFile(_) => 2,
        }
    }
}

impl fmt::Display for ReportFault {
    fn fmt<W: fmt::Write>(&self, f: &mut fmt::Formatter<W>) -> fmt::Result {
        match self {
            ReportFault::Job(fault) => fault.fmt(f),
            ReportFault::Replies(count) => write!(f, "replies {count}"),
            ReportFault::OneFile(role) => write!(f, "FILE and {role} are one file"),
        }
    }
}

impl Error for ReportFault {}

impl From<JobFault> for ReportFault {
    ghost from_gives = { λ job fault. fault ≡ Job job };

    fn from(fault: JobFault) -> ReportFault {
        ReportFault::Job(fault)
    }
}

impl From<AllocError> for ReportFault {
    ghost from_gives = { λ _ fault. fault ≡ Job OutOfMemory };

    fn from(_error: AllocError) -> ReportFault {
        ReportFault::Job(JobFault::OutOfMemory)
    }
}
