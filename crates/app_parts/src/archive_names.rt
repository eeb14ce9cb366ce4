/// The names of the files of `archive`.
#[derive(Clone, Copy, Debug)]
pub struct ArchiveNames<'a> {
    /// The book.
    pub book: &'a str,
    /// The book without its rows of days before the date.
    pub new_book: &'a str,
    /// The book that holds these.
    pub old: &'a str,
}
