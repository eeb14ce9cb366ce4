use crate::identity::Identity;
use crate::original_kind::OriginalKind;

/// The message that a reversal takes back: element 56 (ISO 8583:1993).
#[derive(Clone, Copy, PartialEq, Eq)]
pub struct OriginalRef {
    /// Which kind of message it is.
    pub kind: OriginalKind,
    /// Whether it was sent as a repeat.
    pub repeat: bool,
    /// What names it.
    pub identity: Identity,
}
