use crate::event::Event;
use stm_core_laws::Seat;

/// An entry of a journal: what was done, and at which seat.
#[derive(Clone, Copy, PartialEq, Eq)]
pub struct Entry {
    /// Where it was done.
    pub seat: Seat,
    /// What was done.
    pub event: Event,
}
