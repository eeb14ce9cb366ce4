use issuer_rows::RowKey;

/// What an audit of a batch finds first: the first difference, or none.
#[derive(Clone, Copy, PartialEq, Eq)]
pub enum Audit {
    /// Replies and book are the right ones.
    Same,
    /// The reply at this place, from 0, is another.
    ReplyDiffers(u32),
    /// There are more replies or fewer.
    CountDiffers,
    /// The row of this key is another, or is on one side alone.
    BookDiffers(RowKey),
}
