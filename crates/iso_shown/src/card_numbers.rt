/// Which digits of card numbers are told.
#[derive(Clone, Copy, Debug, PartialEq, Eq)]
pub enum CardNumbers {
    /// The first six and the last four, with a star for each digit between.
    Masked,
    /// All of them.
    Full,
}
