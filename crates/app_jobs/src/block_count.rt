use file_batch::BodyCount;

/// How many blocks, and bodies in them, were decided.
#[derive(Clone, Copy, Debug, PartialEq, Eq)]
pub struct BlockCount {
    /// How many blocks the file has.
    pub blocks: u32,
    /// How many bodies they have together, and how many of them are no message.
    pub messages: BodyCount,
}
