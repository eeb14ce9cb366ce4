/// Who pays for the cards of a prefix.
#[derive(Clone, Copy, PartialEq, Eq)]
pub enum BudgetMode {
    /// Their accounts.
    Direct,
    /// The budget, standing in for them.
    StandIn,
}
