ghost use Rattle.std.specs.Prelude.{◌≡◌};
ghost use Rattle.file_listing.specs.Places.{fault_of_batch};

use crate::body_place::BodyPlace;
use crate::head_fault::HeadFault;
use file_laws::BatchFault;

/// The first fault of a file of a batch or of replies.
#[derive(Clone, Copy, Debug, PartialEq, Eq)]
pub enum BatchPlace {
    /// It is in the head.
    Head(HeadFault),
    /// It is this body.
    Body(BodyPlace),
    /// The last body ends before this byte, and this many bytes are behind it.
    Behind(usize, usize),
}

impl BatchPlace {
    /// Which fault it is.
    pub fn fault(&self) -> BatchFault
        ensures { result ≡ fault_of_batch self.now }
    {
        match self {
            BatchPlace::Head(wrong) => wrong.fault(BatchFault::Count),
            BatchPlace::Body(place) => place.fault(),
            BatchPlace::Behind(..) => BatchFault::Trailing,
        }
    }
}
