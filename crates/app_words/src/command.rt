use crate::engine_choice::EngineChoice;
use engine_workers::Workers;
use file_batch::Strictness;
use file_devices::BatchNames;

/// What the words ask for.
#[derive(Drop)]
pub enum Command {
    /// Print this help.
    Help(String),
    /// Print the program's version.
    Version,
    /// Decide this one body on the sample book.
    One(Vec<u8>),
    /// Decide a batch one message after another.
    Serial {
        /// The names of its files.
        names: BatchNames,
        /// Whether bodies that are no message are answered.
        strictness: Strictness,
    },
    /// Decide a batch by several workers.
    Run {
        /// The names of its files.
        names: BatchNames,
        /// How many workers the engine has that is named.
        workers: Workers,
        /// The engine that decides.
        engine: EngineChoice,
        /// Whether bodies that are no message are answered.
        strictness: Strictness,
    },
    /// Decide a batch by several workers under one lock, and keep the run's journal.
    RunWithJournal {
        /// The names of its files.
        names: BatchNames,
        /// How many workers decide.
        workers: Workers,
        /// The name of the file for the journal.
        journal: String,
        /// Whether bodies that are no message are answered.
        strictness: Strictness,
    },
    /// Decide blocks, one after another. The batch is their file.
    Blocks {
        /// The names of their files.
        names: BatchNames,
        /// How many workers the engine has that is named.
        workers: Workers,
        /// The engine that decides long blocks.
        engine: EngineChoice,
        /// Whether bodies that are no message are answered.
        strictness: Strictness,
    },
    /// Compare replies and book of a batch with what deciding it comes to.
    Audit {
        /// The names of its files.
        names: BatchNames,
        /// The name of the file of a journal, if that is to be played.
        journal: Option<String>,
    },
    /// Compare replies and book of blocks with what deciding them comes to. The batch is their file.
    AuditBlocks(BatchNames),
    /// Show what the file of this name holds.
    Show(String),
    /// Make a batch of texts of bodies.
    Pack {
        /// The names of the texts' files.
        texts: Vec<String>,
        /// The name of the batch's file.
        batch: String,
    },
    /// Make blocks of texts of bodies, one of each.
    PackBlocks {
        /// The names of the texts' files.
        texts: Vec<String>,
        /// The name of the blocks' file.
        blocks: String,
    },
}
