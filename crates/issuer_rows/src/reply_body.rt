ghost use Rattle.std.specs.Prelude.{◌≡◌, ◌↔◌, IsTrue};

use crate::frame_fault::FrameFault;
use iso8583::Reply;

/// The reply to a body of a batch (ISO 8583:1993), or the fault of a body that is no message.
#[derive(Clone, Copy)]
pub enum ReplyBody {
    /// To a message.
    Reply(Reply),
    /// To a body that is no message.
    Fault(FrameFault),
}

impl ReplyBody {
    /// Whether the other is the same.
    pub fn is_same(&self, other: &ReplyBody) -> bool
        ensures { IsTrue result ↔ (self.now ≡ other.now) }
    {
        match (self, other) {
            (ReplyBody::Reply(mine), ReplyBody::Reply(theirs)) => mine.is_same(theirs),
            (ReplyBody::Fault(mine), ReplyBody::Fault(theirs)) => mine == theirs,
            _ => false,
        }
    }
}
