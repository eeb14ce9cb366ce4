ghost use Rattle.std.specs.Prelude.{◌≡◌};
ghost use Rattle.file_laws.specs.BatchFault.{number_of_fault};
ghost use Rattle.file_laws.specs.declared.batch_fault.BatchFault.TheVariants.{OutOfMemory};

use std::alloc::{AllocError, AllocFailed};
use std::fmt;

/// Why a file is not read, decided or written.
#[derive(Clone, Copy, Debug, PartialEq, Eq)]
pub enum BatchFault {
    /// It begins with other letters.
    Magic,
    /// It is of another version.
    Version,
    /// It has more bodies than 65,536.
    Count,
    /// A body's length is outside 1 to 512.
    Length,
    /// It ends within a field.
    Ended,
    /// A byte stands after its last body.
    Trailing,
    /// A call of the source or the sink failed.
    Device,
    /// Memory ran out.
    OutOfMemory,
    /// The reply body of this number, counted from 0, is the text of no reply and of no fault.
    Body(u32),
    /// It has more blocks than 1,000.
    Blocks,
}

impl BatchFault {
    /// The fault's number, 1 to 10.
    pub fn number(&self) -> u8
        ensures { result ≡ number_of_fault self.now }
    {
        match self {
            BatchFault::Magic => 1,
            BatchFault::Version => 2,
            BatchFault::Count => 3,
            BatchFault::Length => 4,
            BatchFault::Ended => 5,
            BatchFault::Trailing => 6,
            BatchFault::Device => 7,
            BatchFault::OutOfMemory => 8,
            BatchFault::Body(_) => 9,
            BatchFault::Blocks => 10,
        }
    }
}

impl From<AllocError> for BatchFault {
    ghost from_gives = { λ _ fault. fault ≡ OutOfMemory };

    fn from(_error: AllocError) -> BatchFault {
        BatchFault::OutOfMemory
    }
}

impl<T: Drop> From<AllocFailed<T>> for BatchFault {
    ghost from_gives = { λ _ fault. fault ≡ OutOfMemory };

    fn from(_error: AllocFailed<T>) -> BatchFault {
        BatchFault::OutOfMemory
    }
}

impl fmt::Display for BatchFault {
    fn fmt<W: fmt::Write>(&self, f: &mut fmt::Formatter<W>) -> fmt::Result {
        match self {
            BatchFault::Magic => write!(f, "other letters at the beginning"),
            BatchFault::Version => write!(f, "another version"),
            BatchFault::Count => write!(f, "more than 65,536 bodies"),
            BatchFault::Length => write!(f, "a body's length is outside 1 to 512"),
            BatchFault::Ended => write!(f, "the file ends within a field"),
            BatchFault::Trailing => write!(f, "a byte after the last body"),
            BatchFault::Device => write!(f, "the device failed"),
            BatchFault::OutOfMemory => write!(f, "out of memory"),
            BatchFault::Body(index) => write!(f, "body {index} is no reply and no fault"),
            BatchFault::Blocks => write!(f, "more than 1,000 blocks"),
        }
    }
}
