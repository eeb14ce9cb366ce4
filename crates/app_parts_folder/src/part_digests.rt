/// The SHA-256 digests of a part's files.
#[derive(Clone, Copy, Debug, PartialEq, Eq)]
pub struct PartDigests {
    /// Of its book's bytes.
    pub book: [u8; 32],
    /// Of its batch's bytes.
    pub batch: [u8; 32],
}
