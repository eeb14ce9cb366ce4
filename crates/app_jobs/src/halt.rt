ghost use Rattle.std.specs.Prelude.{◌≡◌, None};

use crate::job_fault::JobFault;

/// Why not all blocks of a file were decided, and what is kept.
#[derive(Clone, Copy, Debug, PartialEq, Eq)]
pub struct Halt {
    /// Why no further block is kept.
    pub fault: JobFault,
    /// How many blocks the new book keeps: those whose replies are whole in their file. None where no new book was written.
    pub kept: Option<u32>,
}

impl From<JobFault> for Halt {
    ghost from_gives = { λ fault halt. (halt.fault ≡ fault) × (halt.kept ≡ None) };

    fn from(fault: JobFault) -> Halt {
        Halt { fault, kept: None }
    }
}
