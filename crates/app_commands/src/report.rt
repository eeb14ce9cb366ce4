use app_audit::{Audit, BlockAudit};
use app_jobs::BlockCount;
use file_batch::BodyCount;

/// What the program says of what it did, as its contract has it.
#[derive(Drop)]
pub enum Report {
    /// This help.
    Help(String),
    /// Its version.
    Version,
    /// This answer to one body.
    Answer(String),
    /// A batch of so many bodies was decided.
    Decided(BodyCount),
    /// So many blocks were decided.
    DecidedBlocks(BlockCount),
    /// So many bodies were packed into a batch.
    Packed(usize),
    /// Bodies were packed into blocks.
    PackedBlocks {
        /// How many bodies there are in all.
        bodies: usize,
        /// How many blocks there are.
        blocks: usize,
    },
    /// The audit found this, in these words.
    Audited(Audit, Vec<u8>),
    /// The audit of blocks found this, in these words.
    AuditedBlocks(BlockAudit, Vec<u8>),
    /// These lines.
    Lines(Vec<u8>),
}
