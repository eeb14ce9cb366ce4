use iso8583::AccountId;

/// What paid for an original, so where its money goes back.
#[derive(Clone, Copy, PartialEq, Eq)]
pub enum Payer {
    /// The account of this name.
    Account(AccountId),
    /// The stand-in budget of the card's prefix.
    Budget,
}
