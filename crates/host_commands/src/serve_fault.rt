ghost use Rattle.std.specs.Prelude.{◌≡◌};
ghost use Rattle.host_commands.specs.declared.serve_fault.ServeFault.TheVariants.{Opening, Serving};

use crate::opening_fault::OpeningFault;
use host_serving::HostFault;
use std::fmt;

/// Why a host ends before its link does. Its text is what it is of and its number there, as `log 3`.
#[derive(Clone, Copy, Debug, PartialEq, Eq)]
pub enum ServeFault {
    /// It wasn't opened.
    Opening(OpeningFault),
    /// It served its link no further.
    Serving(HostFault),
}

impl fmt::Display for ServeFault {
    fn fmt<W: fmt::Write>(&self, f: &mut fmt::Formatter<W>) -> fmt::Result {
        match self {
            ServeFault::Opening(fault) => fault.fmt(f),
            ServeFault::Serving(fault) => fault.fmt(f),
        }
    }
}

impl From<OpeningFault> for ServeFault {
    ghost from_gives = { λ opening fault. fault ≡ Opening opening };

    fn from(fault: OpeningFault) -> ServeFault {
        ServeFault::Opening(fault)
    }
}

impl From<HostFault> for ServeFault {
    ghost from_gives = { λ serving fault. fault ≡ Serving serving };

    fn from(fault: HostFault) -> ServeFault {
        ServeFault::Serving(fault)
    }
}
