/// How much a part has.
#[derive(Clone, Copy, Debug, PartialEq, Eq)]
pub struct PartCount {
    /// How many bodies its batch has.
    pub messages: usize,
    /// How many rows its book has.
    pub rows: usize,
}
