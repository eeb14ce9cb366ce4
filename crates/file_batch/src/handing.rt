ghost use Rattle.std.specs.Prelude.{◌≡◌, ◌∷◌, ◌++◌, []};
ghost use Rattle.rtrb.specs.Ring.{sent, received, SameProducer, SameConsumer};

use crate::piece::Piece;
use rtrb::{Consumer, Producer, Protocol, PushError};
use std::alloc::Global;
use std::sync::Wait;
use std::thread;
use std::thread::Parker;

/// The next piece that comes. The other thread signals each.
pub(crate) fn wait_for<W: Wait, P: Protocol<Piece>>(
    rt: &W,
    inbound: &mut Consumer<Piece, Global, P>,
    signal: &Parker,
) -> Piece
    ensures ring { SameConsumer inbound.old inbound.new }
    ensures received { received inbound.new ≡ received inbound.old ++ result ∷ [] }
    ensures allowed { P.allows (received inbound.old) result }
{
    for _ in rt.forever() {
        if let Ok(piece) = inbound.pop() {
            return piece;
        }
        signal.park(rt);
    }
    unreachable!()
}

/// Hands a piece over, and signals it.
pub(crate) fn hand_over<W: Wait, P: Protocol<Piece>>(
    rt: &W,
    outbound: &mut Producer<Piece, Global, P>,
    piece: Piece,
    signal: &Parker,
)
    requires { P.allows (sent outbound.old) piece }
    ensures ring { SameProducer outbound.old outbound.new }
    ensures sent { sent outbound.new ≡ sent outbound.old ++ piece ∷ [] }
{
    let mut piece = piece;
    for _ in rt.forever() {
        match outbound.push(piece) {
            Ok(()) => {
                signal.unpark();
                return;
            }
            Err(PushError::Full(back)) => piece = back,
        }
        thread::yield_now();
    }
    unreachable!()
}
