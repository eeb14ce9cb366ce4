ghost use Rattle.std.specs.Prelude.{◌≡◌, ◌+◌, ◌<◌, ◌≤◌, ◌^◌, [], length, vec_len, IfOk, OnOk};
ghost use Rattle.file_batch.specs.Device.{UsesDevice};
ghost use Rattle.file_laws.specs.Replies.{GivesReplies, GivesReplyFile};
ghost use Rattle.file_batch.specs.Window.{ahead};

use crate::window::Window;
use file_devices::Source;
use file_laws::{BatchFault, reply_of};
use issuer_rows::ReplyBody;
use std::alloc::Global;

impl Window {
    /// Reads the replies of the next bodies, so many, in order. A body that is the text of no reply and of no fault is `Body`
    /// with its number, counted from this one on; one whose length is outside 1 to 512 is `Length`.
    pub fn read_replies<R: Source>(
        &mut self,
        alloc: Global,
        source: &mut R,
        from: u32,
        count: u32,
    ) -> Result<Vec<ReplyBody>, BatchFault>
        requires fits { from + count < 2 ^ 32 }
        ensures device { UsesDevice R.is_known R.has_failed R.may_fail source.old source.new result }
        ensures count { IfOk result (λ replies. vec_len replies ≡ count) }
        ensures gives { R.is_known source.old → GivesReplies from count (ahead self.old (R.remaining source.old)) result (ahead self.new (R.remaining source.new)) }
    {
        let mut replies = Vec::new(alloc);
        for index in 0..count {
            self.read_body(source)?;
            let Some(reply) = reply_of(&self.field) else {
                return Err(BatchFault::Body(from + index));
            };
            replies.push(reply)?;
        }
        Ok(replies)
    }
}

/// Reads a reply file, all of the source: `I83R`, version 1, the number of replies, and each behind its length. Returns the replies, in
/// order, or the first fault in reading order. A body that is the text of no reply and of no fault is `Body` with its number, counted
/// from 0. The source is at its end then. `Device` is the fault exactly where a call of the source failed; and memory can run out.
#[tactic(auto, unfolding(file_laws::specs::Reading::bodies_of))]
pub fn read_replies<R: Source>(alloc: Global, source: &mut R) -> Result<Vec<ReplyBody>, BatchFault>
    ensures device { UsesDevice R.is_known R.has_failed R.may_fail source.old source.new result }
    ensures count { IfOk result (λ replies. length replies.items ≤ 65536) }
    ensures gives { R.is_known source.old → GivesReplyFile (R.remaining source.old) result }
    ensures end { OnOk result (R.is_known source.old → R.remaining source.new ≡ []) }
{
    let mut window = Window::new(alloc)?;
    let count = window.read_head(source, b"I83R")?;
    let replies = window.read_replies(alloc, source, 0, count)?;
    window.read_end(source)?;
    Ok(replies)
}
