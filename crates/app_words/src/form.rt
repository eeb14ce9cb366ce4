use iso_shown::CardNumbers;

/// In which form something is told: lines for people, or JSON.
#[derive(Clone, Copy, Debug, PartialEq, Eq)]
pub enum Form {
    /// As lines for people.
    Lines,
    /// As lines of JSON, an object each.
    Json(CardNumbers),
}
