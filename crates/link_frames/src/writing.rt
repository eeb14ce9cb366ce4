ghost use Rattle.std.specs.Prelude.{◌≡◌, ◌++◌, IfErr, OnOk, OnErr};
ghost use Rattle.link_frames.specs.LinkFault.{Writes};
ghost use Rattle.link_frames.specs.Replies.{AppendsPart};

use crate::link_fault::LinkFault;
use file_devices::Sink;

/// Writes all of the bytes. After a fault a beginning of them was written; it is `Unwritable`, exactly where a call of the sink failed.
pub fn put_all<W: Sink>(sink: &mut W, bytes: &[u8]) -> Result<(), LinkFault>
    ensures device { Writes W.is_known W.has_failed W.may_fail sink.old sink.new result }
    ensures ok { OnOk result (W.is_known sink.old → W.written sink.new ≡ W.written sink.old ++ bytes.now) }
    ensures err { OnErr result (W.is_known sink.old → AppendsPart (W.written sink.old) (W.written sink.new) bytes.now) }
    ensures fault { IfErr result (λ e. e ≡ LinkFault.Unwritable) }
{
    let mut rest = bytes;
    while !rest.is_empty() {
        match sink.put(rest) {
            Ok(0) => return Err(LinkFault::Unwritable),
            Ok(count) => rest = &rest[count..],
            Err(_) => return Err(LinkFault::Unwritable),
        }
    }
    Ok(())
}
