/// What a link's source said behind the bytes that it gave.
#[derive(Clone, Copy)]
pub struct Last {
    /// How many bytes it gave, up to 2^64 - 1.
    pub(crate) count: u64,
    /// Whether a call failed; else the link ended.
    pub(crate) has_failed: bool,
}
