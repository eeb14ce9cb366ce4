/// Where a body or a reply stands in its file.
#[derive(Clone, Copy, Debug, PartialEq, Eq)]
pub struct Place {
    /// The block, from 0, where the file has blocks.
    pub block: Option<usize>,
    /// The place in the file or the block, from 0.
    pub index: usize,
}
