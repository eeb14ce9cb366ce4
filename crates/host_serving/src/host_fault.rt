ghost use Rattle.std.specs.Prelude.{◌≡◌};
ghost use Rattle.host_serving.specs.declared.host_fault.HostFault.TheVariants.{OutOfMemory};

use file_laws::LogFault;
use link_frames::LinkFault;
use std::alloc::AllocError;
use std::fmt;

/// Why a host serves a link no longer.
#[derive(Clone, Copy, Debug, PartialEq, Eq)]
pub enum HostFault {
    /// A fault of the link.
    Link(LinkFault),
    /// A fault of the log.
    Log(LogFault),
    /// Memory ran out while messages were read or decided.
    OutOfMemory,
}

impl From<AllocError> for HostFault {
    ghost from_gives = { λ _ fault. fault ≡ OutOfMemory };

    fn from(_error: AllocError) -> HostFault {
        HostFault::OutOfMemory
    }
}

impl From<LinkFault> for HostFault {
    ghost use Rattle.host_serving.specs.declared.host_fault.HostFault.TheVariants.{Link};

    ghost from_gives = { λ link fault. fault ≡ Link link };

    fn from(fault: LinkFault) -> HostFault {
        HostFault::Link(fault)
    }
}

impl From<LogFault> for HostFault {
    ghost use Rattle.host_serving.specs.declared.host_fault.HostFault.TheVariants.{Log};

    ghost from_gives = { λ log fault. fault ≡ Log log };

    fn from(fault: LogFault) -> HostFault {
        HostFault::Log(fault)
    }
}

impl fmt::Display for HostFault {
    fn fmt<W: fmt::Write>(&self, f: &mut fmt::Formatter<W>) -> fmt::Result {
        match self {
            HostFault::Link(fault) => fault.fmt(f),
            HostFault::Log(fault) => fault.fmt(f),
            HostFault::OutOfMemory => f.write_str("memory 1"),
        }
    }
}
