//! What each kind of step at the cursors reports to the seat that makes it.

use crate::seat_view::SeatView;
use atomic_table::{Play, Split};

/// A step on the word execute or validate.
pub struct Draws;

impl Play<(), SeatView> for Draws {
    ghost use Rattle.split_state.specs.CursorRule.{IsDrawn};

    ghost then = { λ step old found new. IsDrawn step.word step.first old found new };
}

/// A load of the word done.
pub struct Sees;

impl Play<(), SeatView> for Sees {
    ghost use Rattle.split_state.specs.CursorRule.{IsSeen};

    ghost then = { λ step old found new. IsSeen step.word step.first old found new };
}

/// A raise of the word done, by the seat that may.
pub struct Raises;

impl Play<(), SeatView> for Raises {
    ghost use Rattle.split_state.specs.CursorRule.{IsRaised};

    ghost then = { λ step old found new. IsRaised step.word step.first old found new };
}

/// A seat beside another, which knows as much and doesn't publish.
pub struct Another;

impl Split<SeatView> for Another {
    ghost use Rattle.split_state.specs.CursorRule.{worker};

    ghost left = { λ view. view };

    ghost right = { worker };
}

/// A load of the word done that makes a seat.
pub struct Enters;

impl Play<(), SeatView> for Enters {
    ghost use Rattle.split_state.specs.CursorRule.{IsEntered};

    ghost then = { λ _ _ found new. IsEntered found new };
}
