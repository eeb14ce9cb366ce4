ghost use Rattle.std.specs.Prelude.{◌≡◌};
ghost use Rattle.app_jobs.specs.declared.job_fault.JobFault.TheVariants.{OutOfMemory};
ghost use Rattle.app_messages.specs.Unpacked.{status_of_fault};
ghost use Rattle.app_messages.specs.declared.block_fault.BlockFault.TheVariants.{Job};

use app_jobs::JobFault;
use std::alloc::AllocError;
use std::error::Error;
use std::fmt;

/// Why a block isn't unpacked. Its text is what it is of and its number there, as `batch 3`.
#[derive(Clone, Copy, Debug, PartialEq, Eq)]
pub enum BlockFault {
    /// The file isn't read, or memory ran out.
    Job(JobFault),
    /// The file has so many blocks, and none of this number.
    Number(usize),
}

impl BlockFault {
    /// The exit status: 1, or 2 where the file has no such block.
    pub fn status(&self) -> u8
        ensures { result ≡ status_of_fault self.now }
    {
        match self {
            BlockFault::Job(_) => 1,
            BlockFault::Number(_) => 2,
        }
    }
}

impl fmt::Display for BlockFault {
    fn fmt<W: fmt::Write>(&self, f: &mut fmt::Formatter<W>) -> fmt::Result {
        match self {
            BlockFault::Job(fault) => fault.fmt(f),
            BlockFault::Number(count) => write!(f, "block {count}"),
        }
    }
}

impl Error for BlockFault {}

impl From<JobFault> for BlockFault {
    ghost from_gives = { λ job fault. fault ≡ Job job };

    fn from(fault: JobFault) -> BlockFault {
        BlockFault::Job(fault)
    }
}

impl From<AllocError> for BlockFault {
    ghost from_gives = { λ _ fault. fault ≡ Job OutOfMemory };

    fn from(_error: AllocError) -> BlockFault {
        BlockFault::Job(JobFault::OutOfMemory)
    }
}
