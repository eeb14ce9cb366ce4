use stm_memory::Version;

/// A validation of a version that finished (Block-STM: validation). It goes over the version's logged reads one by one.
#[derive(Clone, Copy, Debug, PartialEq, Eq)]
pub struct Validation {
    /// The version that is validated.
    pub version: Version,
    /// The epoch at which the validation began.
    pub began: u64,
    /// How many reads, from the first on, were found as they were logged.
    pub place: usize,
    /// How many reads the version had logged when the validation began.
    pub reads: usize,
    /// Whether a read was found otherwise.
    pub failed: bool,
}
