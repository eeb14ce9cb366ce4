use crate::part_digests::PartDigests;

/// What the file of a plan says: how a batch is in parts.
#[derive(Drop)]
pub struct PlanFile {
    /// The digest of the rest's book.
    pub rest: [u8; 32],
    /// The digests of each part's files.
    pub digests: Vec<PartDigests>,
    /// The part of each message, in the order of arrival.
    pub parts: Vec<u32>,
}
