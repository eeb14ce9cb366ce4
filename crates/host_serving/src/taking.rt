ghost use Rattle.std.specs.Prelude.{◌≡◌, ◌≤◌, [], length, OnOk};
ghost use Rattle.link_frames.specs.Link.{AreSoMany};
ghost use Rattle.host_serving.specs.Turn.{HasTaken};

use crate::turn::Turn;
use link_frames::{Front, front_of};
use std::alloc::AllocError;

/// Takes what came in so many frames, in place of what came before. Memory can run out.
pub fn take_turn(turn: &mut Turn, frames: &[u8], count: u32) -> Result<(), AllocError>
    requires few { count ≤ 65536 }
    requires frames { AreSoMany count frames.now }
    ensures taken { OnOk result (HasTaken frames.now [] turn.new) }
    ensures few { OnOk result (length turn.new.bodies ≤ count) }
{
    turn.clear();
    let mut rest = frames;
    for _ in 0..count {
        let Front::Frame(body, behind) = front_of(rest) else {
            unreachable!();
        };
        turn.take(body)?;
        rest = behind;
    }
    Ok(())
}
