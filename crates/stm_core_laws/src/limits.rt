/// The greatest incarnation that a message, and the greatest epoch that a core, may come to.
#[derive(Clone, Copy, Debug, PartialEq, Eq)]
pub struct Limits {
    /// Of each message, from 0.
    pub incarnation: u32,
    /// Of the core; 0 counts as 1, the epoch at which a core begins.
    pub epoch: u64,
}
