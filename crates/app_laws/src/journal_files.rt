ghost use Rattle.std.specs.Prelude.{◌≡◌, ◌≢◌, ◌⊎◌};
ghost use Rattle.app_runs.specs.Words.{IsAudited, IsAuditedWithJournal, IsAuditingFault, IsJournalAuditingFault, JobFault};
ghost use Rattle.app_audit.specs.declared.audited.Audit.{Audit};
ghost use Rattle.app_audit.specs.declared.audited.Audit.TheVariants.{Same};
ghost use Rattle.app_runs.specs.Journaled.{IsDecidedWithJournal};
ghost use Rattle.file_devices.specs.BatchNames.{names_of};
ghost use Rattle.app_laws.specs.Faults.{IsOfNoFile, MayNotBeRead};
ghost use Rattle.app_laws.specs.Journals.{IsFoundByJournal, IsOfOwnFile};
ghost use Rattle.app_laws.specs.Kept.{AreInputsKept};

use file_devices::{BatchNames, Files};

/// Where the run kept a journal, in a file that isn't the replies', an audit without it says `same` too; and where it doesn't find
/// anything, memory ran out or a call on a file failed.
pub fn an_audit_of_the_files_of_a_journaled_run_says_same<F: Files>(
    before: &F,
    after: &F,
    names: &BatchNames,
    journal: &str,
)
    ensures same { (count : _) (found : Audit) → AreInputsKept (F.is_known before.now) (F.holds before.now) (F.holds after.now) (names_of names.now)
        → (names_of names.now).replies ≢ journal.now
        → IsDecidedWithJournal (F.is_known before.now) (F.holds before.now) (F.holds after.now) (names_of names.now) journal.now count
        → IsAudited (F.is_known after.now) (F.holds after.now) (names_of names.now) found → found ≡ Same }
    ensures fault { (count : _) (fault : JobFault) → AreInputsKept (F.is_known before.now) (F.holds before.now) (F.holds after.now) (names_of names.now)
        → (names_of names.now).replies ≢ journal.now
        → IsDecidedWithJournal (F.is_known before.now) (F.holds before.now) (F.holds after.now) (names_of names.now) journal.now count
        → IsAuditingFault (F.holds after.now) (F.failing after.now) (names_of names.now) fault
        → IsOfNoFile (MayNotBeRead (F.failing after.now) (names_of names.now)) fault }
{}

/// An audit by the journal says `same`, but where the run had no incarnation or epoch left, `count differs`; and where it doesn't find
/// anything, memory ran out or a call on a file failed: the journal has no wrong line, and asks for no row that wasn't logged.
pub fn an_audit_by_the_journal_of_a_run_says_same<F: Files>(
    before: &F,
    after: &F,
    names: &BatchNames,
    journal: &str,
)
    ensures same { (count : _) (found : Audit) → AreInputsKept (F.is_known before.now) (F.holds before.now) (F.holds after.now) (names_of names.now)
        → IsOfOwnFile (names_of names.now) journal.now
        → (run : IsDecidedWithJournal (F.is_known before.now) (F.holds before.now) (F.holds after.now) (names_of names.now) journal.now count)
        → IsAuditedWithJournal (F.is_known after.now) (F.holds after.now) (names_of names.now) journal.now found
        → IsFoundByJournal run.committed run.frames found }
    ensures fault { (count : _) (fault : JobFault) → AreInputsKept (F.is_known before.now) (F.holds before.now) (F.holds after.now) (names_of names.now)
        → IsOfOwnFile (names_of names.now) journal.now
        → IsDecidedWithJournal (F.is_known before.now) (F.holds before.now) (F.holds after.now) (names_of names.now) journal.now count
        → IsJournalAuditingFault (F.holds after.now) (F.failing after.now) (names_of names.now) journal.now fault
        → IsOfNoFile (MayNotBeRead (F.failing after.now) (names_of names.now) ⊎ (F.failing after.now).reading journal.now) fault }
{}
