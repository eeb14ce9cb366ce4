ghost use Rattle.std.specs.Prelude.{◌+◌, ◌≤◌, length};

use crate::buffer::{move_to_front, take_behind};
use crate::frames::frames_of;
use crate::front::{Front, front_of};
use crate::link_fault::LinkFault;
use file_devices::Source;
use std::alloc::{AllocError, Global};

// How many bytes are asked for at once, at most: some 10,000 messages.
const ROOM: usize = 1_048_576;

/// What was taken from a link: the frames that were given last, and behind them what wasn't given yet. Bodies are read where they came,
/// and reading takes no memory.
#[derive(Drop)]
pub struct LinkReader {
    buffer: Vec<u8>,
    start: usize,
    given: usize,
    end: usize,
    ghost in_order: { start ≤ given },
    ghost kept: { given ≤ end },
    ghost within: { end ≤ length buffer.items },
    // A frame has 514 bytes at most.
    ghost room: { 514 ≤ length buffer.items },
}

impl LinkReader {
    ghost use Rattle.std.specs.Prelude.{◌≡◌, ◌≢◌, ◌<◌, ◌≤◌, ◌++◌, [], length, true, false, IfOk, OnErr, IfErr};
    ghost use Rattle.link_frames.specs.Link.{AreSoMany, HasFrame, IsPart, HasWrongLength, IsNoFrame, HasFault};
    ghost use Rattle.link_frames.specs.LinkFault.{Reads};
    ghost use Rattle.link_frames.specs.Reader.{given, kept, ahead};

    /// A reader to which nothing has come yet. Memory can run out.
    pub fn new(alloc: Global) -> Result<LinkReader, AllocError>
        ensures { IfOk result (λ reader. (given reader ≡ []) × (kept reader ≡ [])) }
    {
        Ok(LinkReader {
            buffer: vec![in alloc; 0; ROOM]?,
            start: 0,
            given: 0,
            end: 0,
        })
    }

    /// The frames that were given last: each body behind its length.
    pub fn frames(&self) -> &[u8]
        ensures { result.now ≡ given self.now }
    {
        &self.buffer[self.start..self.given]
    }

    // Whether a whole frame has come; a wrong length is `Length`.
    fn has_frame(&self) -> Result<bool, LinkFault>
        ensures whole { IfOk result (λ has. has ≡ true → HasFrame (kept self.now)) }
        ensures part { IfOk result (λ has. has ≡ false → IsPart (kept self.now)) }
        ensures fault { IfErr result (λ e. (e ≡ LinkFault.Length) × HasWrongLength (kept self.now)) }
    {
        match front_of(&self.buffer[self.given..self.end]) {
            Front::Frame(_, _) => Ok(true),
            Front::Part => Ok(false),
            Front::Wrong => Err(LinkFault::Length),
        }
    }

    // Gives the whole frames that have come, at most so many.
    fn give(&mut self, most: u32) -> u32
        ensures most { result ≤ most }
        ensures frames { AreSoMany result (given self.new) }
        ensures order { kept self.old ≡ given self.new ++ kept self.new }
        ensures all { result < most → IsNoFrame (kept self.new) }
    {
        let frames = frames_of(&self.buffer[self.given..self.end], most);
        self.start = self.given;
        self.given += frames.size;
        frames.count
    }

    // Takes the next bytes behind less than a frame. Returns false at the link's end.
    fn take_more<R: Source>(&mut self, source: &mut R) -> Result<bool, LinkFault>
        requires part { IsPart (kept self.old) }
        ensures device { Reads R.is_known R.has_failed R.may_fail source.old source.new result }
        ensures fault { IfErr result (λ e. e ≡ LinkFault.Unreadable) }
        ensures none { given self.new ≡ [] }
        ensures size { length self.new.buffer.items ≡ length self.old.buffer.items }
        ensures bytes { R.is_known source.old → ahead self.old (R.remaining source.old) ≡ ahead self.new (R.remaining source.new) }
        ensures more { IfOk result (λ more. more ≡ true → length (kept self.old) < length (kept self.new)) }
        ensures same { IfOk result (λ more. more ≡ false → kept self.new ≡ kept self.old) }
        ensures end { IfOk result (λ more. more ≡ false → R.is_known source.old → R.remaining source.old ≡ []) }
    {
        let count = self.end - self.given;
        move_to_front(self.buffer.as_mut_slice(), self.given, self.end);
        self.start = 0;
        self.given = 0;
        self.end = count;
        let Ok(more) = take_behind(source, self.buffer.as_mut_slice(), count) else {
            return Err(LinkFault::Unreadable);
        };
        self.end += more;
        Ok(more > 0)
    }

    // What the end of the link comes to, where no byte is left behind these.
    fn end_of_link(&self) -> Result<u32, LinkFault>
        ensures end { IfOk result (λ n. (n ≡ 0) × (kept self.now ≡ [])) }
        ensures fault { IfErr result (λ e. (e ≡ LinkFault.Ended) × (kept self.now ≢ [])) }
    {
        if self.given != self.end {
            return Err(LinkFault::Ended);
        }
        Ok(0)
    }

    /// Waits until a whole frame has come, and gives all that have come then, at most so many; none at the link's end. It asks for more
    /// only while no frame is whole. A fault comes once all frames before it were given: `Ended` within a frame, `Length` for a length of
    /// 0 or over 512, and `Unreadable` exactly where a call of the source failed.
    pub fn next<R: Source>(&mut self, source: &mut R, most: u32) -> Result<u32, LinkFault>
        requires some { 0 < most }
        ensures device { Reads R.is_known R.has_failed R.may_fail source.old source.new result }
        ensures most { IfOk result (λ count. count ≤ most) }
        ensures frames { IfOk result (λ count. AreSoMany count (given self.new)) }
        // What is given is the beginning of what comes, and what is left is left.
        ensures order { R.is_known source.old → ahead self.old (R.remaining source.old) ≡ given self.new ++ ahead self.new (R.remaining source.new) }
        // All that have come are given.
        ensures all { IfOk result (λ count. count < most → IsNoFrame (kept self.new)) }
        // Nothing is waited for where a frame is whole.
        ensures ready { HasFrame (kept self.old) → source.new ≡ source.old }
        ensures end { IfOk result (λ count. count ≡ 0 → R.is_known source.old → ahead self.old (R.remaining source.old) ≡ []) }
        ensures fault { IfErr result (λ e. R.is_known source.old → HasFault (ahead self.old (R.remaining source.old)) e) }
        ensures kinds { IfErr result (λ e. (e ≢ LinkFault.OutOfMemory) × (e ≢ LinkFault.Unwritable)) }
        ensures none { OnErr result (given self.new ≡ []) }
    {
        self.start = self.given;
        'reading: loop {
            if self.has_frame()? {
                return Ok(self.give(most));
            }
            if !self.take_more(source)? {
                return self.end_of_link();
            }
        }
    }
}
