/// The names of the files of `part`.
#[derive(Clone, Copy, Debug)]
pub struct PartNames<'a> {
    /// The book.
    pub book: &'a str,
    /// The batch.
    pub batch: &'a str,
    /// The folder of the parts.
    pub folder: &'a str,
}
