ghost use Rattle.std.specs.Prelude.{◌≡◌, OnOk};
ghost use Rattle.file_laws.specs.Frames.{AreFramesOf};
ghost use Rattle.host_serving.specs.Entering.{Appends};
ghost use Rattle.host_serving.specs.Deciding.{Decides};
ghost use Rattle.host_serving.specs.Tally.{counted};

use crate::decider::Decider;
use file_laws::LogFault;
use issuer_view::Decide;
use log_file::{Bodies, GrowingFile, LogWriter, Synced};
use std::alloc::{AllocError, Global};
use std::thread::{Threads, join_mut};

// Fewer messages than so many are decided sooner than a thread begins.
const FEW_BODIES: u32 = 4;

/// Decides the messages of these bodies, and appends their entry to the log and syncs it: beside one another, but where they are few. What
/// either comes to is the same as alone.
pub(crate) fn decide_and_append<'a, T: Threads + Sync, G: GrowingFile + Drop, F: Decide + Sync>(
    rt: &T,
    alloc: Global,
    decider: &mut Decider,
    log: &mut LogWriter<G>,
    bodies: &'a Bodies,
    decision: &F,
) -> (Result<(), AllocError>, Result<Synced<'a>, LogFault>)
    ensures decided { OnOk result.0 (Decides bodies.now decider.old decider.new) }
    ensures frames { OnOk result.0 (AreFramesOf bodies.now decider.new.frames.items) }
    ensures tally { OnOk result.0 (decider.new.tally ≡ counted decider.old.tally decider.new.frames.items) }
    ensures appended { Appends G.is_known G.synced G.unsynced log.old log.new bodies.now result.1 }
{
    if bodies.len() < FEW_BODIES {
        let decided = decider.decide(alloc, bodies, decision);
        return (decided, log.append(bodies));
    }
    join_mut(
        rt,
        &mut || -> Result<(), AllocError>
            ensures decided { OnOk result (Decides bodies.entry.now decider.entry.now decider.exit.now) }
            ensures frames { OnOk result (AreFramesOf bodies.entry.now decider.exit.now.frames.items) }
            ensures tally { OnOk result (decider.exit.now.tally ≡ counted decider.entry.now.tally decider.exit.now.frames.items) }
        { decider.decide(alloc, bodies, decision) },
        &mut || -> Result<Synced, LogFault>
            ensures { Appends G.is_known G.synced G.unsynced log.entry.now log.exit.now bodies.entry.now result }
        { log.append(bodies) },
    )
}
