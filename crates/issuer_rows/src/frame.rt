ghost use Rattle.std.specs.Prelude.{◌≡◌, ◌↔◌, IsTrue};

use crate::frame_fault::FrameFault;
use iso8583::{Message, Pan};

/// A body of a batch as it was read: a message (ISO 8583:1993), or the fault of a body that is none.
#[derive(Clone, Copy)]
pub enum Frame {
    /// It is this message.
    Good(Message),
    /// It is no message.
    Bad(FrameFault),
}

impl Frame {
    // The number of the card that the message is of.
    #[inline(always)]
    pub(crate) fn pan(&self) -> Option<&Pan> {
        match self {
            Frame::Good(Message::Request(request)) => Some(&request.transaction.pan),
            Frame::Good(Message::Advice(advice)) => Some(&advice.transaction.pan),
            Frame::Good(Message::Reversal(reversal)) => Some(&reversal.transaction.pan),
            Frame::Bad(_) => None,
        }
    }

    /// Whether the other is the same.
    pub fn is_same(&self, other: &Frame) -> bool
        ensures { IsTrue result ↔ (self.now ≡ other.now) }
    {
        match (self, other) {
            (Frame::Good(mine), Frame::Good(theirs)) => mine.is_same(theirs),
            (Frame::Bad(mine), Frame::Bad(theirs)) => mine == theirs,
            _ => false,
        }
    }
}
