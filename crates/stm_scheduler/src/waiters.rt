ghost use Rattle.std.specs.Prelude.{◌≡◌, ◌<◌, length, map};
ghost use Rattle.stm_scheduler.specs.Board.{woken};
ghost use Rattle.stm_scheduler.specs.Cursors.{IsLoweredToWaiting};
ghost use Rattle.stm_scheduler.specs.Sound.{WaitList};

use crate::message_progress::MessageProgress;
use crate::status::Status;

/// Makes all ready that wait for the message at the index; they are listed from the first one on. Returns the cursor,
/// lowered to the least of them.
pub(crate) fn wake(
    marks: &mut Vec<MessageProgress>,
    nexts: &[Option<u32>],
    first: Option<u32>,
    index: u32,
    cursor: u32,
) -> u32
    requires listed { WaitList marks.old.items nexts.now first index }
    requires nexts { length nexts.now ≡ length marks.old.items }
    ensures marks { marks.new.items ≡ map (woken index) marks.old.items }
    ensures cursor { IsLoweredToWaiting marks.old.items index cursor result }
{
    let mut next = first;
    let mut least = cursor;
    while let Some(waiting) = next {
        marks[waiting as usize].status = Status::Ready;
        least = least.min(waiting);
        next = nexts[waiting as usize];
    }
    least
}
