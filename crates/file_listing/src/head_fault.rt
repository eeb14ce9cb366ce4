ghost use Rattle.std.specs.Prelude.{◌≡◌};
ghost use Rattle.file_listing.specs.Places.{fault_of_head};

use file_laws::BatchFault;

/// What is wrong with the head of a file.
#[derive(Clone, Copy, Debug, PartialEq, Eq)]
pub enum HeadFault {
    /// It begins with other letters.
    Letters,
    /// It is of this version, which stands at byte 4.
    Version(u16),
    /// It announces this many bodies or blocks at byte 6, more than are allowed.
    TooMany(u32),
    /// The file ends within it.
    Ends,
}

impl HeadFault {
    // Which fault it is; more than are allowed of what it announces is this one.
    pub(crate) fn fault(&self, many: BatchFault) -> BatchFault
        ensures { result ≡ fault_of_head many self.now }
    {
        match self {
            HeadFault::Letters => BatchFault::Magic,
            HeadFault::Version(_) => BatchFault::Version,
            HeadFault::TooMany(_) => many,
            HeadFault::Ends => BatchFault::Ended,
        }
    }
}
