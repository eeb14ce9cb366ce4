/// How much a log has.
#[derive(Clone, Copy, Debug, PartialEq, Eq)]
pub struct LogSize {
    /// How many messages, or bodies that are none.
    pub messages: u32,
    /// How many bytes the torn tail has; 0 where there is none.
    pub torn: u64,
}
