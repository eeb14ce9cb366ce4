ghost use Rattle.std.specs.Prelude.{◌≢◌, ◌⊎◌, ℕ, List, Some};
ghost use Rattle.app_words.specs.Arguments.{Asks};
ghost use Rattle.app_words.specs.Asked.{Asked, Names, audit, run_with_journal};
ghost use Rattle.app_commands.specs.Answered.{IsAuditedInUse, Pages};
ghost use Rattle.file_batch.specs.declared.strictness.Strictness.{Strictness};
ghost use Rattle.app_laws.specs.Acted.{Acts, HasStopped, IsAuditOf, SaysSame, SaysSameByJournal};
ghost use Rattle.app_laws.specs.Faults.{MayNotBeRead};

use file_devices::Files;

/// Where `serial`, `run` or `blocks` returned 0, NEWBOOK isn't BOOK, and nothing was written since, the audit of the same names prints
/// `same` and returns 0. Or it returns 1, and its fault is that memory ran out, that a call on a file failed, that another run has claimed
/// a file, or that standard output didn't take the report. So it finds no difference, and no fault of a file.
pub fn an_audit_right_behind_a_run_says_same<F: Files>(before: &F, left: &F, after: &F)
    ensures { (names : Names) (what how : Asked) (deciding auditing : List (List ℕ)) (opened closed old new : Pages) (status : ℕ)
        → IsAuditOf names what how → names.book ≢ names.new_book → F.is_known before.now → F.is_known left.now
        → Asks deciding what → Asks auditing how
        → Acts (F.is_known before.now) (F.holds before.now) (F.holds left.now) (F.failing before.now) deciding opened closed 0
        → Acts (F.is_known left.now) (F.holds left.now) (F.holds after.now) (F.failing left.now) auditing old new status
        → SaysSame (MayNotBeRead (F.failing left.now) names) (IsAuditedInUse (F.failing left.now).in_use names) old new status }
{}

/// The same of `run` with a journal, and the audit by it. But where the run's core stopped before it had committed all messages, as no
/// incarnation or epoch was left, the audit prints `count differs` and returns 3.
pub fn an_audit_by_the_journal_right_behind_its_run_says_same<F: Files>(
    before: &F,
    left: &F,
    after: &F,
)
    ensures { (names : Names) (workers : ℕ) (journal : List ℕ) (strictness : Strictness) (deciding auditing : List (List ℕ)) (opened closed old new : Pages) (status : ℕ)
        → names.book ≢ names.new_book → F.is_known before.now → F.is_known left.now
        → Asks deciding (run_with_journal names workers journal strictness) → Asks auditing (audit names (Some journal))
        → Acts (F.is_known before.now) (F.holds before.now) (F.holds left.now) (F.failing before.now) deciding opened closed 0
        → Acts (F.is_known left.now) (F.holds left.now) (F.holds after.now) (F.failing left.now) auditing old new status
        → SaysSameByJournal (HasStopped (F.is_known before.now) (F.holds before.now) (F.holds left.now) names journal)
        (MayNotBeRead (F.failing left.now) names ⊎ (F.failing left.now).reading journal) (IsAuditedInUse (F.failing left.now).in_use names) old new status }
{}
