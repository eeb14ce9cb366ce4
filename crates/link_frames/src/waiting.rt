ghost use Rattle.std.specs.Prelude.{◌≡◌, ◌++◌, IsTrue};
ghost use Rattle.rtrb.specs.Ring.{sent};
ghost use Rattle.file_devices.specs.Appending.{Begins};

use crate::link::{InOrder, Link};
use crate::signals::Signals;
use rtrb::Producer;
use std::alloc::Global;
use std::sync::Wait;

/// Hands the bytes over, as there is room for them. Returns false where no more are wanted.
pub(crate) fn hand_over<W: Wait, L: Link>(
    rt: &W,
    outbound: &mut Producer<u8, Global, InOrder<L>>,
    bytes: &[u8],
    signals: &Signals,
) -> bool
    requires { L.is_known → Begins (sent outbound.old ++ bytes.now) L.bytes }
    ensures { IsTrue result → sent outbound.new ≡ sent outbound.old ++ bytes.now }
{
    let mut rest = bytes;
    for _ in rt.forever() {
        let (_, behind) = outbound.push_partial_slice(rest);
        rest = behind;
        signals.came.unpark();
        if signals.is_stopped() {
            return false;
        }
        if rest.is_empty() {
            return true;
        }
        signals.room.park(rt);
    }
    unreachable!()
}
