use crate::acquirer::Acquirer;
use crate::local_stamp::LocalStamp;
use crate::stan::Stan;

/// What names a message: elements 32, 11 and 12 (ISO 8583:1993).
#[derive(Clone, Copy, PartialEq, Eq)]
pub struct Identity {
    /// Element 32.
    pub acquirer: Acquirer,
    /// Element 11.
    pub stan: Stan,
    /// Element 12.
    pub stamp: LocalStamp,
}
