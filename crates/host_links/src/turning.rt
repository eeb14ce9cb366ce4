//! One turn of a link at a host.

ghost use Rattle.std.specs.Prelude.{◌≡◌, [], IfErr, OnOk};
ghost use Rattle.host_serving.specs.Turn.{HasTaken};
ghost use Rattle.host_links.specs.Turning.{Turns, StopsTurning, of_all as of_all_faults};
ghost use Rattle.host_links.specs.Turns.{messages_at};

use crate::buffers::LinkBuffers;
use file_devices::IntoWrite;
use host_serving::{Host, HostFault, Turn, Watch};
use issuer_rows::Frame;
use issuer_view::Decide;
use log_file::{Bodies, GrowingFile};
use std::alloc::Global;
use std::mem;
use std::thread::Threads;

/// The messages of the turn that was served last, whose bodies these are.
pub(crate) fn messages_behind<'a, G: GrowingFile + Drop>(
    host: &'a Host<G>,
    bodies: &Bodies,
) -> &'a [Frame]
    ensures { result.now ≡ messages_at bodies.now host.now.decider.frames.items }
{
    if bodies.is_empty() {
        return &[];
    }
    host.decider().frames()
}

// What a fault in a turn means for all links: answers that can't be kept are want of memory, too.
fn of_all(fault: HostFault) -> HostFault
    ensures { result ≡ of_all_faults fault }
{
    match fault {
        HostFault::Link(_) | HostFault::OutOfMemory => HostFault::OutOfMemory,
        HostFault::Log(fault) => HostFault::Log(fault),
    }
}

/// Serves what came in a turn of this link, and keeps the answers to it. After a fault, which is of the log or of memory, the host is of no
/// use.
pub(crate) fn turn_at<R: Threads + Sync, G: GrowingFile + Drop, F: Decide + Sync, N: Watch>(
    rt: &R,
    alloc: Global,
    host: &mut Host<G>,
    watch: &mut N,
    link: usize,
    bytes: &[u8],
    buffers: &mut LinkBuffers,
    decision: &F,
) -> Result<(), HostFault>
    requires came { HasTaken bytes.now [] buffers.old.turn }
    ensures turned { OnOk result (Turns G.is_known G.synced G.unsynced host.old host.new
        (record {
          link = link;
          bytes = bytes.now;
          bodies = buffers.new.turn.bodies;
          requests = buffers.new.turn.requests.items;
          messages = messages_at buffers.new.turn.bodies host.new.decider.frames.items;
        })
        buffers.new.replies.items) }
    ensures stopped { IfErr result (λ e. StopsTurning G.is_known G.synced G.unsynced e host.old host.new) }
{
    let turn = mem::replace(&mut buffers.turn, Turn::new(alloc));
    let mut replies = mem::replace(&mut buffers.replies, Vec::new(alloc));
    replies.clear();
    let mut sink = IntoWrite::new(replies);
    match host.enter(
        rt,
        alloc,
        turn,
        &mut buffers.writer,
        &mut sink,
        decision,
        watch,
    ) {
        Ok(again) => {
            buffers.turn = again;
            buffers.replies = sink.into_writer();
            Ok(())
        }
        Err(fault) => Err(of_all(fault)),
    }
}
