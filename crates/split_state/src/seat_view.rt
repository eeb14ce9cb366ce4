use atomic_table::Seat;

/// What a seat at the cursors knows. It stands in contracts alone: no value of it is made.
pub struct SeatView {
    /// How many messages the batch has.
    pub messages: u64,
    /// How many of them the seat saw done.
    pub seen: u64,
    /// Whether it is the one seat that may raise how many are done.
    pub publishes: bool,
    /// How many steps it made.
    pub steps: u64,
    /// The word of its last step: 0 execute, 1 validate, 2 done.
    pub word: u64,
    /// What the step was given.
    pub given: u64,
    /// What the step found in the word.
    pub found: u64,
}

/// A thread's place at the cursors.
pub type CursorSeat = Seat<(), SeatView>;
