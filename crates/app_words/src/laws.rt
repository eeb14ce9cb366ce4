ghost use Rattle.std.specs.Prelude.{ℕ, List};
ghost use Rattle.app_words.specs.Asked.{Names};
ghost use Rattle.app_words.specs.Plainly.{AuditIsRead, BlockAuditIsRead, BlocksAreRead, HelpIsRead, IsNoCommand, JournalAuditIsRead, JournalIsRead, OneFrameIsRead, RunIsRead, SerialIsRead, SplitBlocksAreRead, SplitIsRead, SplitJournalIsNone, StrictSerialIsRead, VersionIsRead};
ghost use Rattle.std.specs.Prelude.{codes, [], ◌∷◌};

/// What plain words are read as, whatever the program's name is:
/// - `one FRAME` as the body that FRAME stands for, `--help` as a call for help, `--version` as one for the version.
/// - `one` alone, and no word, as a usage error.
/// - `serial`, `run`, `blocks`, `audit` and `audit-blocks` with names of files, none of which begins with a hyphen, as what they say; with
///   the journal that stands behind `--journal`, or by the split engine behind `--engine split`; `serial` strictly behind `--strict`.
/// - Both of these together as a usage error.
pub fn plain_arguments_are_read()
    ensures one { (name digits body : List ℕ) → OneFrameIsRead name digits body }
    ensures help { (name : List ℕ) → HelpIsRead name }
    ensures version { (name : List ℕ) → VersionIsRead name }
    ensures no_frame { (name : List ℕ) → IsNoCommand (name ∷ codes "one" ∷ []) }
    ensures no_word { (name : List ℕ) → IsNoCommand (name ∷ []) }
    ensures serial { (name : List ℕ) (names : Names) → SerialIsRead name names }
    ensures strict_serial { (name : List ℕ) (names : Names) → StrictSerialIsRead name names }
    ensures run { (name : List ℕ) (names : Names) → RunIsRead name names }
    ensures journal { (name : List ℕ) (names : Names) (file : List ℕ) → JournalIsRead name names file }
    ensures split { (name : List ℕ) (names : Names) → SplitIsRead name names }
    ensures split_journal { (name : List ℕ) (names : Names) (file : List ℕ) → SplitJournalIsNone name names file }
    ensures blocks { (name : List ℕ) (names : Names) → BlocksAreRead name names }
    ensures split_blocks { (name : List ℕ) (names : Names) → SplitBlocksAreRead name names }
    ensures audit { (name : List ℕ) (names : Names) → AuditIsRead name names }
    ensures journal_audit { (name : List ℕ) (names : Names) (file : List ℕ) → JournalAuditIsRead name names file }
    ensures block_audit { (name : List ℕ) (names : Names) → BlockAuditIsRead name names }
{}
