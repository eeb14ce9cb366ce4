/// Why a worker leaves before all is committed. It sets the stop mark then, and the rest is decided one after another.
#[derive(Clone, Copy, PartialEq, Eq)]
pub(crate) enum Exit {
    /// Memory ran out.
    OutOfMemory,
    /// No incarnation or epoch is left.
    Exhausted,
    /// The decision stopped, and not where the core stopped it.
    Lost,
}
