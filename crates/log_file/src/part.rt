use crate::bodies::Bodies;

/// What stands next behind the whole entries of a log.
#[derive(Drop)]
pub(crate) enum Part {
    /// An entry.
    Entry(ReadEntry),
    /// A torn tail of so many bytes.
    Torn(u64),
    /// Something else.
    Broken,
}

/// An entry that was read.
#[derive(Drop)]
pub(crate) struct ReadEntry {
    pub(crate) bodies: Bodies,
    pub(crate) digest: [u8; 32],
    /// How many bytes it has.
    pub(crate) size: u64,
}

/// What the bytes of an entry are.
#[derive(Drop)]
pub(crate) enum Checked {
    /// These bodies, and their digest fits.
    Whole(Bodies),
    /// The digest fits, and the payload is none of bodies.
    NoBodies,
    /// The digest doesn't fit.
    Unmatched,
}
