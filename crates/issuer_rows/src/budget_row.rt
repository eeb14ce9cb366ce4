use crate::balance::Balance;
use crate::budget_mode::BudgetMode;

/// The budget that stands in for the accounts of the cards of a prefix.
#[derive(Clone, Copy, PartialEq, Eq)]
pub struct BudgetRow {
    /// Whether it stands in.
    pub mode: BudgetMode,
    /// The most for one message.
    pub cap: Balance,
    /// What is left of it.
    pub left: Balance,
}
