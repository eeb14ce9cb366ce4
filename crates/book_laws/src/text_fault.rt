ghost use Rattle.std.specs.Prelude.{◌≡◌};
ghost use Rattle.book_laws.specs.declared.text_fault.TextFault.TheVariants.{OutOfMemory};

use crate::part::Part;
use std::alloc::AllocError;

/// Why a text is no book, before it is asked whether the book is sound.
#[derive(Clone, Copy, Debug, PartialEq, Eq)]
pub enum TextFault {
    /// The text is no JSON.
    Syntax,
    /// The part has other keys, a value of another kind, or a row that stands before it.
    Shape(Part),
    /// A number or a text is outside its range, or an original is none that can be.
    Range,
    /// Memory ran out.
    OutOfMemory,
}

impl From<AllocError> for TextFault {
    ghost from_gives = { λ _ fault. fault ≡ OutOfMemory };

    fn from(_error: AllocError) -> TextFault {
        TextFault::OutOfMemory
    }
}
