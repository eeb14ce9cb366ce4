/// Why a part's files aren't taken.
#[derive(Clone, Copy, Debug, PartialEq, Eq)]
pub enum PartFault {
    /// One can't be opened or read, as where the part isn't decided yet.
    Unreadable,
    /// Its book isn't that of the plan.
    OtherBook,
    /// Its batch isn't that of the plan.
    OtherBatch,
    /// It was decided by another plan.
    OtherPlan,
    /// Its replies or its new book aren't those that were written when it was decided.
    OtherFiles,
}

impl PartFault {
    /// The fault's number.
    pub fn number(&self) -> u8 {
        match self {
            PartFault::Unreadable => 1,
            PartFault::OtherBook => 2,
            PartFault::OtherBatch => 3,
            PartFault::OtherPlan => 4,
            PartFault::OtherFiles => 5,
        }
    }
}
