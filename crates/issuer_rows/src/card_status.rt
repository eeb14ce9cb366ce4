/// Whether a card may be used.
#[derive(Clone, Copy, PartialEq, Eq)]
pub enum CardStatus {
    /// In use.
    Active,
    /// Blocked by the issuer.
    Blocked,
    /// Reported lost.
    Lost,
    /// Reported stolen.
    Stolen,
}
