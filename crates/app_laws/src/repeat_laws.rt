ghost use Rattle.std.specs.Prelude.{◌≡◌, ℕ, List};
ghost use Rattle.std.specs.List.{slice_get};
ghost use Rattle.issuer_words.specs.Words.{ReplyBody, replies_to, rows_after};
ghost use Rattle.book_laws.specs.Text.{book_text};
ghost use Rattle.app_jobs.specs.Decided.{IsDecided};
ghost use Rattle.file_devices.specs.BatchNames.{names_of};
ghost use Rattle.app_laws.specs.Repeats.{AreRepliesIn, HasTwoOutputs, IsBookLeft, IsRepeatOf, without};

use file_devices::{BatchNames, Files};

/// A request or an advice that was the first of its identity in the batch of one run, and its repeat in the batch of a later run, whose
/// book is the new book of the first: who reads both reply files finds the same reply to both. The file of the later new book holds the
/// book that there is without the repeat, and the other replies are those without it.
pub fn a_repeat_to_a_later_run_is_answered_alike<F: Files>(
    before: &F,
    left: &F,
    opened: &F,
    ended: &F,
    names: &BatchNames,
    later: &BatchNames,
)
    ensures reply { (count more : _) (i j : ℕ) (replies later_replies : List ReplyBody)
        (first : IsDecided (F.is_known before.now) (F.holds before.now) (F.holds left.now) (names_of names.now) count)
        (second : IsDecided (F.is_known opened.now) (F.holds opened.now) (F.holds ended.now) (names_of later.now) more)
        → F.is_known before.now → F.is_known opened.now → HasTwoOutputs (names_of names.now) → HasTwoOutputs (names_of later.now)
        → IsBookLeft (F.holds left.now) (names_of names.now) (F.holds opened.now) (names_of later.now)
        → IsRepeatOf first.rows first.frames i second.frames j
        → AreRepliesIn (F.holds left.now) (names_of names.now) replies → AreRepliesIn (F.holds ended.now) (names_of later.now) later_replies
        → slice_get later_replies j ≡ slice_get replies i }
    ensures book { (count more : _) (i j : ℕ)
        (first : IsDecided (F.is_known before.now) (F.holds before.now) (F.holds left.now) (names_of names.now) count)
        (second : IsDecided (F.is_known opened.now) (F.holds opened.now) (F.holds ended.now) (names_of later.now) more)
        → F.is_known before.now → F.is_known opened.now
        → IsBookLeft (F.holds left.now) (names_of names.now) (F.holds opened.now) (names_of later.now)
        → IsRepeatOf first.rows first.frames i second.frames j
        → F.holds ended.now (names_of later.now).new_book (book_text (rows_after second.rows (without j second.frames))) }
    ensures others { (count more : _) (i j : ℕ)
        (first : IsDecided (F.is_known before.now) (F.holds before.now) (F.holds left.now) (names_of names.now) count)
        (second : IsDecided (F.is_known opened.now) (F.holds opened.now) (F.holds ended.now) (names_of later.now) more)
        → F.is_known before.now
        → IsBookLeft (F.holds left.now) (names_of names.now) (F.holds opened.now) (names_of later.now)
        → IsRepeatOf first.rows first.frames i second.frames j
        → replies_to second.rows (without j second.frames) ≡ without j (replies_to second.rows second.frames) }
{}
