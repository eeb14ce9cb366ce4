use crate::advance::Advance;

/// Where it is told how far files are read. What can't be told is dropped.
pub(crate) trait Progress: Copy {
    /// A file of this name is opened to be read.
    fn is_opened(&self, name: &str);

    /// How many bytes the file of this name has, where that is known.
    fn size_of(&self, name: &str) -> Option<u64>;

    /// How many seconds have gone by since some moment, always the same.
    fn second(&self) -> u64;

    /// It is read so far.
    fn has_read(&self, advance: &Advance);
}
