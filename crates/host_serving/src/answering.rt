ghost use Rattle.std.specs.Prelude.{◌≡◌, ◌⊎◌, ◌++◌, IfErr, OnOk, OnErr};
ghost use Rattle.link_frames.specs.Incoming.{merged};
ghost use Rattle.link_frames.specs.LinkFault.{Writes};
ghost use Rattle.link_frames.specs.Replies.{AppendsPart};
ghost use Rattle.host_serving.specs.Deciding.{HasDecided};

use crate::decider::Decider;
use file_devices::Sink;
use link_frames::{LinkFault, NetworkRequest, ReplyWriter};
use log_file::Synced;

/// Writes the replies to the messages that were decided last, each in its frame, and the reply to each network management request that came
/// with them at its place between them. The bodies have to be those of an entry that is synced, which `synced` shows: so no reply leaves
/// ahead of the log. A body that is no message gets none. After a fault a beginning of the replies was written. It is `Unwritable`, exactly
/// where a call of the sink failed, or `OutOfMemory`, before the first byte.
pub fn answer<W: Sink>(
    writer: &mut ReplyWriter,
    synced: &Synced,
    decider: &Decider,
    requests: &[NetworkRequest],
    sink: &mut W,
) -> Result<(), LinkFault>
    requires ahead { HasDecided synced.now.bodies.now decider.now }
    ensures device { Writes W.is_known W.has_failed W.may_fail sink.old sink.new result }
    ensures ok { OnOk result (W.is_known sink.old
        → W.written sink.new ≡ W.written sink.old ++ merged requests.now decider.now.prefix.replies.items) }
    ensures err { OnErr result (W.is_known sink.old
        → AppendsPart (W.written sink.old) (W.written sink.new) (merged requests.now decider.now.prefix.replies.items)) }
    ensures kinds { IfErr result (λ e. (e ≡ LinkFault.Unwritable) ⊎ (e ≡ LinkFault.OutOfMemory)) }
{
    let _ = synced;
    writer.write(decider.replies(), requests, sink)
}
