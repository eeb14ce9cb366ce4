use crate::status::Status;

/// Where a message stands.
#[derive(Clone, Copy, Debug, PartialEq, Eq)]
pub struct MessageProgress {
    /// What is done with it.
    pub status: Status,
    /// Its present incarnation, from 0.
    pub incarnation: u32,
    /// The greatest epoch at which a validation that this incarnation passed began, if it passed one.
    pub stamp: Option<u64>,
}
