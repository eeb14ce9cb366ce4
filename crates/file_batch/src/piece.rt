ghost use Rattle.std.specs.Prelude.{◌≡◌, ◌≤◌, ◌∷◌, ◌++◌, [], length};
ghost use Rattle.file_batch.specs.Pieces.{frames_in};

use issuer_rows::{Frame, ReplyBody};
use rtrb::Protocol;
use std::alloc::Global;

/// Some of a batch's messages in their order, on their way from the thread that reads to the one that decides and back, with the replies
/// to them once they are decided. One without frames says that no more come, and one without replies that no more are decided.
#[derive(Drop)]
pub(crate) struct Piece {
    pub(crate) frames: Vec<Frame>,
    pub(crate) replies: Vec<ReplyBody>,
}

impl Piece {
    /// A piece without frames.
    pub(crate) fn new(alloc: Global) -> Piece
        ensures { result.frames.items ≡ [] }
    {
        Piece {
            frames: Vec::new(alloc),
            replies: Vec::new(alloc),
        }
    }
}

/// No more frames are handed over than a batch may have.
#[derive(Clone, Copy)]
pub(crate) struct OfOneBatch;

impl Protocol<Piece> for OfOneBatch {
    ghost allows = { λ before piece. length (frames_in (before ++ piece ∷ [])) ≤ 65536 };
}
