use crate::seat_view::SeatView;
use atomic_table::TableRule;

/// What holds of the cursors of a batch of so many messages, whatever the threads do.
pub struct CursorRule;

impl TableRule<(), SeatView, u64> for CursorRule {
    ghost use Rattle.split_state.specs.CursorRule.{IsKept, publisher};

    ghost holds = { IsKept };

    ghost first = { publisher };
}
