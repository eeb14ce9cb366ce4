/// Why a file is not opened to grow.
#[derive(Clone, Copy, Debug, PartialEq, Eq)]
pub enum OpenFault {
    /// Another program has it open to grow.
    InUse,
    /// It can't be opened or made, or isn't a plain file.
    Refused,
    /// Memory ran out.
    OutOfMemory,
}
