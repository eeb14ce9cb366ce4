ghost use Rattle.std.specs.Prelude.{◌≡◌};
ghost use Rattle.app_runs.specs.Words.{AreBlocksAudited, AreBlocksDecided, IsAudited, IsAuditingFault, IsBlockAuditingFault, IsDecided, JobFault};
ghost use Rattle.app_audit.specs.declared.audited.Audit.{Audit};
ghost use Rattle.app_audit.specs.declared.block_audit.BlockAudit.{BlockAudit};
ghost use Rattle.app_audit.specs.declared.audited.Audit.TheVariants.{Same};
ghost use Rattle.app_audit.specs.declared.block_audit.BlockAudit.TheVariants as in_blocks;
ghost use Rattle.file_devices.specs.BatchNames.{names_of};
ghost use Rattle.app_laws.specs.Faults.{IsOfNoFile, MayNotBeRead};
ghost use Rattle.app_laws.specs.Kept.{AreInputsKept};

use file_devices::{BatchNames, Files};

/// Where a batch was decided from files to files, and its book and batch are as they were, whatever an audit of the same names finds in
/// the files is `same`; and where it doesn't find anything, memory ran out or a call on a file failed.
pub fn an_audit_of_the_files_of_a_run_says_same<F: Files>(before: &F, after: &F, names: &BatchNames)
    ensures same { (count : _) (found : Audit) → AreInputsKept (F.is_known before.now) (F.holds before.now) (F.holds after.now) (names_of names.now)
        → IsDecided (F.is_known before.now) (F.holds before.now) (F.holds after.now) (names_of names.now) count
        → IsAudited (F.is_known after.now) (F.holds after.now) (names_of names.now) found → found ≡ Same }
    ensures fault { (count : _) (fault : JobFault) → AreInputsKept (F.is_known before.now) (F.holds before.now) (F.holds after.now) (names_of names.now)
        → IsDecided (F.is_known before.now) (F.holds before.now) (F.holds after.now) (names_of names.now) count
        → IsAuditingFault (F.holds after.now) (F.failing after.now) (names_of names.now) fault
        → IsOfNoFile (MayNotBeRead (F.failing after.now) (names_of names.now)) fault }
{}

/// The same where the blocks of a block file were decided.
pub fn an_audit_of_the_files_of_blocks_says_same<F: Files>(
    before: &F,
    after: &F,
    names: &BatchNames,
)
    ensures same { (count messages : _) (found : BlockAudit) → AreInputsKept (F.is_known before.now) (F.holds before.now) (F.holds after.now) (names_of names.now)
        → AreBlocksDecided (F.is_known before.now) (F.holds before.now) (F.holds after.now) (names_of names.now) count messages
        → AreBlocksAudited (F.is_known after.now) (F.holds after.now) (names_of names.now) found → found ≡ in_blocks.Same }
    ensures fault { (count messages : _) (fault : JobFault) → AreInputsKept (F.is_known before.now) (F.holds before.now) (F.holds after.now) (names_of names.now)
        → AreBlocksDecided (F.is_known before.now) (F.holds before.now) (F.holds after.now) (names_of names.now) count messages
        → IsBlockAuditingFault (F.holds after.now) (F.failing after.now) (names_of names.now) fault
        → IsOfNoFile (MayNotBeRead (F.failing after.now) (names_of names.now)) fault }
{}
