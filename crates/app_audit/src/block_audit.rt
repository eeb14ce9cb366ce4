use issuer_rows::RowKey;

/// What an audit of blocks finds first: the first difference, or none.
#[derive(Clone, Copy, PartialEq, Eq)]
pub enum BlockAudit {
    /// Replies and book are the right ones.
    Same,
    /// There are more blocks or fewer, or one has more replies or fewer.
    CountDiffers,
    /// A reply is another.
    ReplyDiffers {
        /// The place of its block, from 0.
        block: u32,
        /// Its place in the block, from 0.
        index: u32,
    },
    /// The row of this key is another, or is on one side alone.
    BookDiffers(RowKey),
}
