ghost use Rattle.std.specs.Prelude.{◌≡◌};
ghost use Rattle.app_jobs.specs.JobFault.{part_of, number_of, fault_of_claim, fault_of_read, fault_of_text, fault_of_write};
ghost use Rattle.app_jobs.specs.declared.job_fault.JobFault.TheVariants.{OutOfMemory};

use book_json::JsonFault;
use file_batch::BatchFault;
use file_devices::{ClaimFault, ReadFault, WriteFault};
use file_listing::ListingFault;
use std::alloc::{AllocError, AllocFailed};
use std::error::Error;
use std::fmt;
use stm_journal_text::ReplayFault;

/// Why a job is not done. Its text is what it is of and its number there, as `batch 3`.
#[derive(Clone, Copy, Debug, PartialEq, Eq)]
pub enum JobFault {
    /// A file can't be opened or read.
    Unreadable,
    /// A file can't be made or written.
    Unwritable,
    /// Another run writes a file.
    InUse,
    /// A book is none.
    Book(JsonFault),
    /// A batch or its replies are none, or are not written.
    Batch(BatchFault),
    /// A journal is none.
    Journal(ReplayFault),
    /// The line of this number, from 1, of a text of bodies is none.
    Text(usize),
    /// So many bodies are no message, where each has to be one.
    Bodies(u32),
    /// Memory ran out.
    OutOfMemory,
}

impl JobFault {
    /// What the fault is of: `file`, `book`, `batch`, `journal`, `text`, `unreadable` (bodies) or `memory`.
    pub fn part(&self) -> &'static str
        ensures { result.now ≡ part_of self.now }
    {
        match self {
            JobFault::Unreadable | JobFault::Unwritable | JobFault::InUse => "file",
            JobFault::Book(_) => "book",
            JobFault::Batch(_) => "batch",
            JobFault::Journal(_) => "journal",
            JobFault::Text(_) => "text",
            JobFault::Bodies(_) => "unreadable",
            JobFault::OutOfMemory => "memory",
        }
    }

    /// The fault's number there; of a text the number of its wrong line, from 1; of bodies how many are no message.
    pub fn number(&self) -> usize
        ensures { result ≡ number_of self.now }
    {
        match self {
            JobFault::Unreadable | JobFault::OutOfMemory => 1,
            JobFault::Unwritable => 2,
            JobFault::InUse => 3,
            JobFault::Book(fault) => usize::from(fault.number()),
            JobFault::Batch(fault) => usize::from(fault.number()),
            JobFault::Journal(fault) => usize::from(fault.number()),
            JobFault::Text(line) => *line,
            JobFault::Bodies(count) => *count as usize,
        }
    }
}

impl fmt::Display for JobFault {
    fn fmt<W: fmt::Write>(&self, f: &mut fmt::Formatter<W>) -> fmt::Result {
        write!(f, "{} {}", self.part(), self.number())
    }
}

impl Error for JobFault {}

impl From<AllocError> for JobFault {
    ghost from_gives = { λ _ fault. fault ≡ OutOfMemory };

    fn from(_error: AllocError) -> JobFault {
        JobFault::OutOfMemory
    }
}

impl<T: Drop> From<AllocFailed<T>> for JobFault {
    ghost from_gives = { λ _ fault. fault ≡ OutOfMemory };

    fn from(_error: AllocFailed<T>) -> JobFault {
        JobFault::OutOfMemory
    }
}

impl From<ReadFault> for JobFault {
    ghost from_gives = { λ read fault. fault ≡ fault_of_read read };

    fn from(fault: ReadFault) -> JobFault {
        match fault {
            ReadFault::Unreadable => JobFault::Unreadable,
            ReadFault::OutOfMemory => JobFault::OutOfMemory,
        }
    }
}

impl From<WriteFault> for JobFault {
    ghost from_gives = { λ write fault. fault ≡ fault_of_write write };

    fn from(fault: WriteFault) -> JobFault {
        match fault {
            WriteFault::Unwritable => JobFault::Unwritable,
            WriteFault::OutOfMemory => JobFault::OutOfMemory,
        }
    }
}

impl From<ClaimFault> for JobFault {
    ghost from_gives = { λ claim fault. fault ≡ fault_of_claim claim };

    fn from(fault: ClaimFault) -> JobFault {
        match fault {
            ClaimFault::InUse => JobFault::InUse,
            ClaimFault::OutOfMemory => JobFault::OutOfMemory,
        }
    }
}

impl From<ListingFault> for JobFault {
    ghost from_gives = { λ text fault. fault ≡ fault_of_text text };

    fn from(fault: ListingFault) -> JobFault {
        match fault {
            ListingFault::Line(line) => JobFault::Text(line),
            ListingFault::Count => JobFault::Batch(BatchFault::Count),
            ListingFault::OutOfMemory => JobFault::OutOfMemory,
        }
    }
}
