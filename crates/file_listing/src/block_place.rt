use crate::wrong_block::WrongBlock;

/// The first block that is wrong.
#[derive(Clone, Copy, Debug, PartialEq, Eq)]
pub struct BlockPlace {
    /// Its number, from 0: so many blocks before it are whole.
    pub number: u32,
    /// How many blocks are announced.
    pub of: u32,
    /// The byte of the file at which its count begins.
    pub at: usize,
    /// What is wrong with it.
    pub wrong: WrongBlock,
}
