/// What paid for an original, in the words of a book's text.
#[derive(Clone, Copy, Debug, PartialEq, Eq)]
pub enum Paid {
    /// Nothing did: it wasn't posted.
    Nothing,
    /// The card, which had its own money in versions 1 and 2.
    Card,
    /// An account, which is named beside it.
    Account,
    /// The stand-in budget of the card's prefix.
    Budget,
}
