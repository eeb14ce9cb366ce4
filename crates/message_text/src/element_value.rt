use iso8583::{Action, OriginalRef, Pan};

/// The value of an element that is there, as a message or a reply keeps it.
#[derive(Clone, Copy)]
pub(crate) enum ElementValue<'a> {
    /// A card number, to be masked.
    Masked(Pan),
    /// An amount in minor units.
    Number(u64),
    /// An action code.
    Action(Action),
    /// What a reversal takes back.
    Original(&'a OriginalRef),
    /// A text.
    Text(&'a str),
}
