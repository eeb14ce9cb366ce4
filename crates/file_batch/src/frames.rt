ghost use Rattle.std.specs.Prelude.{◌≡◌, ◌≤◌, [], length, vec_len, IfOk, OnOk};
ghost use Rattle.file_batch.specs.Device.{UsesDevice};
ghost use Rattle.file_laws.specs.Reading.{GivesWhole, body_at, bodies_at, ended};
ghost use Rattle.file_laws.specs.Frames.{GivesFrames, GivesBatch};
ghost use Rattle.file_batch.specs.InOrder.{GivesInto};
ghost use Rattle.file_batch.specs.Window.{ahead, GivesFrame};

use crate::window::Window;
use file_devices::Source;
use file_laws::{BatchFault, frame_of};
use issuer_rows::Frame;
use std::alloc::Global;

impl Window {
    /// Sees that nothing is left. A byte that is left is `Trailing`.
    pub fn read_end<R: Source>(&mut self, source: &mut R) -> Result<(), BatchFault>
        ensures device { UsesDevice R.is_known R.has_failed R.may_fail source.old source.new result }
        ensures gives { R.is_known source.old → GivesWhole (λ _. tt) result (ended (ahead self.old (R.remaining source.old))) }
        ensures end { OnOk result (R.is_known source.old → R.remaining source.new ≡ []) }
    {
        match self.make_ready(source) {
            Ok(()) => Err(BatchFault::Trailing),
            Err(BatchFault::Ended) => Ok(()),
            Err(fault) => Err(fault),
        }
    }

    // The frame of the next body. A body that was taken whole is read where it stands, without a copy.
    #[inline(always)]
    fn read_frame<R: Source>(&mut self, source: &mut R) -> Result<Frame, BatchFault>
        ensures device { UsesDevice R.is_known R.has_failed R.may_fail source.old source.new result }
        ensures gives { R.is_known source.old → GivesFrame result
            (ahead self.new (R.remaining source.new)) (body_at (ahead self.old (R.remaining source.old))) }
    {
        if let Some(size) = self.body_there() {
            let begin = self.start + 2;
            let frame = frame_of(&self.piece[begin..begin + size]);
            self.start = begin + size;
            return Ok(frame);
        }
        self.read_body(source)?;
        Ok(frame_of(&self.field))
    }

    /// Reads the frames of the next bodies, so many, over the memory of others.
    pub(crate) fn read_into<R: Source>(
        &mut self,
        source: &mut R,
        count: u32,
        frames: &mut Vec<Frame>,
    ) -> Result<(), BatchFault>
        ensures device { UsesDevice R.is_known R.has_failed R.may_fail source.old source.new result }
        ensures count { OnOk result (vec_len frames.new ≡ count) }
        ensures gives { R.is_known source.old → GivesInto result frames.new.items
            (ahead self.new (R.remaining source.new)) (bodies_at count (ahead self.old (R.remaining source.old))) }
    {
        frames.clear();
        frames.reserve(count as usize)?;
        for _ in 0..count {
            frames.push_reserved(self.read_frame(source)?);
        }
        Ok(())
    }

    /// Reads the frames of the next bodies, so many, in order: of each the message that it spells, or its fault. A body whose
    /// length is outside 1 to 512 is `Length`.
    pub fn read_frames<R: Source>(
        &mut self,
        alloc: Global,
        source: &mut R,
        count: u32,
    ) -> Result<Vec<Frame>, BatchFault>
        ensures device { UsesDevice R.is_known R.has_failed R.may_fail source.old source.new result }
        ensures count { IfOk result (λ frames. vec_len frames ≡ count) }
        ensures gives { R.is_known source.old → GivesFrames result
            (ahead self.new (R.remaining source.new)) (bodies_at count (ahead self.old (R.remaining source.old))) }
    {
        let mut frames = Vec::new(alloc);
        self.read_into(source, count, &mut frames)?;
        Ok(frames)
    }
}

/// Reads a batch file, all of the source: `I83B`, version 1, the number of bodies, and each behind its length. Returns a frame for each
/// body, in order, or the first fault in reading order. The source is at its end then. `Device` is the fault exactly where a call of the
/// source failed; and memory can run out.
#[tactic(auto, unfolding(file_laws::specs::Reading::bodies_of))]
pub fn read_batch<R: Source>(alloc: Global, source: &mut R) -> Result<Vec<Frame>, BatchFault>
    ensures device { UsesDevice R.is_known R.has_failed R.may_fail source.old source.new result }
    ensures count { IfOk result (λ frames. length frames.items ≤ 65536) }
    ensures gives { R.is_known source.old → GivesBatch result (R.remaining source.old) }
    ensures end { OnOk result (R.is_known source.old → R.remaining source.new ≡ []) }
{
    let mut window = Window::new(alloc)?;
    let count = window.read_head(source, b"I83B")?;
    let frames = window.read_frames(alloc, source, count)?;
    window.read_end(source)?;
    Ok(frames)
}
