use crate::book_place::BookPlace;
use book_laws::JsonFault;

/// The first fault of a text that is no sound book, and its place.
#[derive(Clone, Copy)]
pub struct WrongBook {
    /// The fault.
    pub fault: JsonFault,
    /// Where it stands.
    pub place: BookPlace,
}
