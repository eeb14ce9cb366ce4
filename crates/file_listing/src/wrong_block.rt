use crate::body_place::BodyPlace;

/// Why there is no block where one is to begin.
#[derive(Clone, Copy, Debug, PartialEq, Eq)]
pub enum WrongBlock {
    /// It announces this many bodies, more than are allowed.
    TooMany(u32),
    /// The file ends within its count.
    Ends,
    /// This body of it is wrong.
    Body(BodyPlace),
}
