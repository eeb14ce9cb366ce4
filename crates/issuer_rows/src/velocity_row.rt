use crate::balance::Balance;
use crate::count::Count;

/// The row of a card's day: what was spent with the card on it.
#[derive(Clone, Copy, PartialEq, Eq)]
pub struct VelocityRow {
    /// Approvals on that day, less those that were reversed whole.
    pub count: Count,
    /// Money spent on that day, less what was reversed.
    pub sum: Balance,
}
