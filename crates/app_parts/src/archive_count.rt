/// How many rows a book has that was archived.
#[derive(Clone, Copy, Debug, PartialEq, Eq)]
pub struct ArchiveCount {
    /// How many of them went.
    pub archived: usize,
    /// How many the new book has.
    pub kept: usize,
}
