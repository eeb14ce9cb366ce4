ghost use Rattle.std.specs.Prelude.{◌≡◌};
ghost use Rattle.file_listing.specs.Places.{fault_of_blocks};

use crate::block_place::BlockPlace;
use crate::head_fault::HeadFault;
use crate::wrong_block::WrongBlock;
use file_laws::BatchFault;

/// The first fault of a file of blocks or of their replies.
#[derive(Clone, Copy, Debug, PartialEq, Eq)]
pub enum BlocksPlace {
    /// It is in the head.
    Head(HeadFault),
    /// It is in this block.
    Block(BlockPlace),
    /// The last block ends before this byte, and this many bytes are behind it.
    Behind(usize, usize),
}

impl BlocksPlace {
    /// Which fault it is. The number of a body is the one that it has in its block.
    pub fn fault(&self) -> BatchFault
        ensures { result ≡ fault_of_blocks self.now }
    {
        match self {
            BlocksPlace::Head(wrong) => wrong.fault(BatchFault::Blocks),
            BlocksPlace::Block(place) => match &place.wrong {
                WrongBlock::TooMany(_) => BatchFault::Count,
                WrongBlock::Ends => BatchFault::Ended,
                WrongBlock::Body(place) => place.fault(),
            },
            BlocksPlace::Behind(..) => BatchFault::Trailing,
        }
    }
}
