use issuer_rows::Book;

/// A book in two parts by a date.
#[derive(Drop)]
pub struct Archived {
    /// Its rows but for those of days before the date.
    pub new_book: Book,
    /// Its rows of days before the date, and the accounts that paid for one of them.
    pub old: Book,
}
