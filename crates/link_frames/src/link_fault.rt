ghost use Rattle.std.specs.Prelude.{◌≡◌};
ghost use Rattle.link_frames.specs.LinkFault.{number_of_fault};
ghost use Rattle.link_frames.specs.declared.link_fault.LinkFault.TheVariants.{OutOfMemory};

use std::alloc::AllocError;
use std::fmt;

/// Why a link is served no longer.
#[derive(Clone, Copy, Debug, PartialEq, Eq)]
pub enum LinkFault {
    /// It ended within a frame.
    Ended,
    /// A frame's length is outside 1 to 512.
    Length,
    /// A reply can't be written: a call of the sink failed.
    Unwritable,
    /// It can't be read: a call of the source failed.
    Unreadable,
    /// Memory ran out.
    OutOfMemory,
}

impl LinkFault {
    /// The fault's number, 1 to 5.
    pub fn number(&self) -> u8
        ensures { result ≡ number_of_fault self.now }
    {
        match self {
            LinkFault::Ended => 1,
            LinkFault::Length => 2,
            LinkFault::Unwritable => 3,
            LinkFault::Unreadable => 4,
            LinkFault::OutOfMemory => 5,
        }
    }
}

impl From<AllocError> for LinkFault {
    ghost from_gives = { λ _ fault. fault ≡ OutOfMemory };

    fn from(_error: AllocError) -> LinkFault {
        LinkFault::OutOfMemory
    }
}

impl fmt::Display for LinkFault {
    fn fmt<W: fmt::Write>(&self, f: &mut fmt::Formatter<W>) -> fmt::Result {
        write!(f, "link {}", self.number())
    }
}
