/// The names of the files of `join`.
#[derive(Clone, Copy, Debug)]
pub struct JoinNames<'a> {
    /// The folder of the parts.
    pub folder: &'a str,
    /// The replies in the order of arrival.
    pub replies: &'a str,
    /// The book behind the batch.
    pub new_book: &'a str,
}
