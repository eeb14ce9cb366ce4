ghost use Rattle.std.specs.Prelude.{ℕ, List};
ghost use Rattle.issuer_words.specs.Words.{Advice, Frame, Request, Reversal, Rows};
ghost use Rattle.book_changes.specs.Days.{KeepsDaysCovered, KeepsLimits};
ghost use Rattle.book_changes.specs.Deciding.{AnswersAlike, ArchivesAnyTime, LaterNeedsNoPast, LateAdviceIsNew, LateRequestIsNew, LateReversalIsLost};
ghost use Rattle.book_changes.specs.Joining.{IsPartedBy, LeavesBothSound};

/// Each row of the book is a row of the new book or of the old one, and the same; where both have it, it is an account; and they have no
/// other.
pub fn both_books_are_the_book()
    ensures { (date : List ℕ) (rows : Rows) → IsPartedBy date rows }
{}

/// Where nothing is wrong with the book, nothing is wrong with the new book nor with the old one.
pub fn both_books_are_sound()
    ensures { (date : List ℕ) (rows : Rows) → LeavesBothSound date rows }
{}

/// A batch of messages that may need none of the rows that went gets the same replies on the new book as on the book, and leaves the same
/// rows.
pub fn what_needs_no_past_is_answered_alike()
    ensures { (date : List ℕ) (rows : Rows) (frames : List Frame) → AnswersAlike date rows frames }
{}

/// A message whose local date (element 12), or of a reversal that of its original, is the date or later may need none of the rows that went.
pub fn a_message_of_a_later_day_needs_no_past()
    ensures { (date : List ℕ) (rows : Rows) (frame : Frame) → LaterNeedsNoPast date rows frame }
{}

/// A book that is archived before a batch of such messages or behind it gives the same new book.
pub fn a_book_is_archived_at_any_time()
    ensures { (date : List ℕ) (rows : Rows) (frames : List Frame) → ArchivesAnyTime date rows frames }
{}

/// On the new book the reversal of an original that went is answered 914; the repeat of a request or an advice that went is decided as the
/// message itself, as one whose identity wasn't seen, so that it may be paid once more.
pub fn a_late_message_finds_no_original()
    ensures reversal { (date : List ℕ) (rows : Rows) (v : Reversal) → LateReversalIsLost date rows v }
    ensures request { (date : List ℕ) (rows : Rows) (r : Request) → LateRequestIsNew date rows r }
    ensures advice { (date : List ℕ) (rows : Rows) (a : Advice) → LateAdviceIsNew date rows a }
{}

/// On the new book, too, each day has the approvals and the money of all of its requests that can still be reversed, and no day is over its
/// card's limits, where that was so of the book.
pub fn days_stay_in_order()
    ensures covered { (date : List ℕ) (rows : Rows) → KeepsDaysCovered date rows }
    ensures limits { (date : List ℕ) (rows : Rows) → KeepsLimits date rows }
{}
