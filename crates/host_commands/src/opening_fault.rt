ghost use Rattle.std.specs.Prelude.{◌≡◌};
ghost use Rattle.host_commands.specs.OpeningFault.{fault_of_open, fault_of_read};
ghost use Rattle.host_commands.specs.declared.opening_fault.OpeningFault.TheVariants.{Book, Log, OutOfMemory};

use book_laws::JsonFault;
use file_devices::ReadFault;
use file_laws::LogFault;
use log_file::OpenFault;
use std::alloc::AllocError;
use std::fmt;

/// Why a host isn't opened. Its text is what it is of and its number there, as `log 3`.
#[derive(Clone, Copy, Debug, PartialEq, Eq)]
pub enum OpeningFault {
    /// The file of the book can't be opened or read.
    Unreadable,
    /// The book is none.
    Book(JsonFault),
    /// The log is none, or it can't be read or written.
    Log(LogFault),
    /// Memory ran out.
    OutOfMemory,
}

impl fmt::Display for OpeningFault {
    fn fmt<W: fmt::Write>(&self, f: &mut fmt::Formatter<W>) -> fmt::Result {
        match self {
            OpeningFault::Unreadable => f.write_str("file 1"),
            OpeningFault::Book(fault) => write!(f, "book {}", fault.number()),
            OpeningFault::Log(fault) => fault.fmt(f),
            OpeningFault::OutOfMemory => f.write_str("memory 1"),
        }
    }
}

impl From<AllocError> for OpeningFault {
    ghost from_gives = { λ _ fault. fault ≡ OutOfMemory };

    fn from(_error: AllocError) -> OpeningFault {
        OpeningFault::OutOfMemory
    }
}

impl From<ReadFault> for OpeningFault {
    ghost from_gives = { λ read fault. fault ≡ fault_of_read read };

    fn from(fault: ReadFault) -> OpeningFault {
        match fault {
            ReadFault::Unreadable => OpeningFault::Unreadable,
            ReadFault::OutOfMemory => OpeningFault::OutOfMemory,
        }
    }
}

impl From<JsonFault> for OpeningFault {
    ghost from_gives = { λ book fault. fault ≡ Book book };

    fn from(fault: JsonFault) -> OpeningFault {
        OpeningFault::Book(fault)
    }
}

impl From<LogFault> for OpeningFault {
    ghost from_gives = { λ log fault. fault ≡ Log log };

    fn from(fault: LogFault) -> OpeningFault {
        OpeningFault::Log(fault)
    }
}

impl From<OpenFault> for OpeningFault {
    ghost from_gives = { λ cause fault. fault ≡ fault_of_open cause };

    fn from(fault: OpenFault) -> OpeningFault {
        OpeningFault::Log(match fault {
            OpenFault::InUse => LogFault::InUse,
            OpenFault::Refused => LogFault::Failed,
            OpenFault::OutOfMemory => LogFault::OutOfMemory,
        })
    }
}
