use crate::sight::Sight;

/// A look for a row: whose it is, and the number of the row's chain in its shard, where it had one. The number is a hint: by it the row
/// is found again without hashing.
#[derive(Clone, Copy)]
pub struct Look {
    /// Whose row was seen.
    pub sight: Sight,
    /// The number of the row's chain in its shard.
    pub number: Option<usize>,
}
