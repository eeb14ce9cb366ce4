ghost use Rattle.std.specs.Prelude.{◌≡◌, ◌≤◌, [], IfOk, OnOk, length};
ghost use Rattle.stm_journal.specs.Drives.{Hands, IsDrive, IsDriven, empty_hands};
ghost use Rattle.stm_core_laws.specs.Run.{IsReached};

use crate::hands::empty_hands;
use crate::traced::Traced;
use crate::turns::take_turn;
use issuer_rows::{Book, Frame};
use std::alloc::{AllocError, Global};
use stm_core_laws::Seat;

/// Takes one turn of a worker for each of these seats, one after another, on a core of this book and these bodies without limits but
/// those of the numbers. A turn is one event; messages are decided by the decision table. It fails only where memory runs out.
pub fn drive(
    alloc: Global,
    book: &Book,
    frames: &[Frame],
    seats: &[Seat],
) -> Result<Traced, AllocError>
    requires { length frames.now ≤ 65536 }
    ensures { IfOk result (λ traced. IsDrive book.now frames.now seats.now traced.entries traced.core) }
{
    let mut traced = Traced::new(alloc, book, frames)?;
    match take_turns(alloc, frames, seats, &mut traced) {
        Ok(()) => Ok(traced),
        Err(fault) => Err(fault),
    }
}

// Takes the turns on this core, with empty hands at first.
fn take_turns(
    alloc: Global,
    frames: &[Frame],
    seats: &[Seat],
    traced: &mut Traced,
) -> Result<(), AllocError>
    requires entries { traced.old.entries ≡ [] }
    requires frames { traced.old.core.state.frames ≡ frames.now }
    requires reached { IsReached traced.old.core.state }
    ensures { OnOk result ((after : Hands) × IsDriven traced.old.core empty_hands seats.now traced.new.entries traced.new.core after) }
{
    let mut hands = empty_hands(alloc)?;
    for index in 0..seats.len() {
        let seat = seats[index];
        let place = seat.number() as usize;
        let next = take_turn(alloc, frames, traced, seat, hands[place])?;
        hands[place] = next;
    }
    Ok(())
}
