ghost use Rattle.std.specs.Prelude.{◌≡◌, Some};
ghost use Rattle.file_listing.specs.Faults.{text_fault_text};
ghost use Rattle.file_listing.specs.declared.listing_fault.ListingFault.TheVariants.{OutOfMemory};

use std::alloc::{AllocError, AllocFailed};
use std::error::Error;
use std::fmt;

/// Why a text has no bodies.
#[derive(Clone, Copy, Debug, PartialEq, Eq)]
pub enum ListingFault {
    /// The line of this number, from 1, is neither a body nor passed over.
    Line(usize),
    /// There are more than 65,536 bodies.
    Count,
    /// Memory ran out.
    OutOfMemory,
}

impl fmt::Display for ListingFault {
    ghost output = { λ fault. Some (text_fault_text fault) };

    fn fmt<W: fmt::Write>(&self, f: &mut fmt::Formatter<W>) -> fmt::Result {
        match self {
            ListingFault::Line(n) => write!(f, "line {n} is no body in hexadecimal"),
            ListingFault::Count => write!(f, "there are more than 65536 bodies"),
            ListingFault::OutOfMemory => write!(f, "memory ran out"),
        }
    }
}

impl Error for ListingFault {}

impl From<AllocError> for ListingFault {
    ghost from_gives = { λ _ fault. fault ≡ OutOfMemory };

    fn from(_error: AllocError) -> ListingFault {
        ListingFault::OutOfMemory
    }
}

impl<T: Drop> From<AllocFailed<T>> for ListingFault {
    ghost from_gives = { λ _ fault. fault ≡ OutOfMemory };

    fn from(_error: AllocFailed<T>) -> ListingFault {
        ListingFault::OutOfMemory
    }
}
