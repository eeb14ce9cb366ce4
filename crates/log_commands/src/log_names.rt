/// The names of a log's files.
#[derive(Clone, Copy, Debug)]
pub struct LogNames<'a> {
    /// The opening book of the log.
    pub book: &'a str,
    /// The log.
    pub log: &'a str,
    /// The replies to its messages.
    pub replies: &'a str,
    /// The book after them.
    pub new_book: &'a str,
}
