ghost use Rattle.std.specs.Prelude.{◌≡◌};
ghost use Rattle.message_text.specs.declared.make_fault.MakeFault.TheVariants.{OutOfMemory};

use iso_laws::Element;
use iso8583::CodecFault;
use std::alloc::{AllocError, AllocFailed};

/// Why words make no message.
#[derive(Clone, Copy)]
pub enum MakeFault {
    /// The type is none that is taken in.
    Kind,
    /// The word at this place, from 0, is no name of an element with a value behind `=`.
    Word(usize),
    /// This element is given twice.
    Twice(Element),
    /// The element can't have the value that is given.
    Value(Element),
    /// The type and the elements make no message.
    Body(CodecFault),
    /// Memory ran out.
    OutOfMemory,
}

impl From<AllocError> for MakeFault {
    ghost from_gives = { λ _ fault. fault ≡ OutOfMemory };

    fn from(_error: AllocError) -> MakeFault {
        MakeFault::OutOfMemory
    }
}

impl<T: Drop> From<AllocFailed<T>> for MakeFault {
    ghost from_gives = { λ _ fault. fault ≡ OutOfMemory };

    fn from(_error: AllocFailed<T>) -> MakeFault {
        MakeFault::OutOfMemory
    }
}
