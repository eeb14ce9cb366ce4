ghost use Rattle.std.specs.Prelude.{ℕ, List};
ghost use Rattle.issuer_words.specs.Words.{Frame, Rows};
ghost use Rattle.issuer_laws.specs.Order.{ShareNoRow, TakeAnyOrder};
ghost use Rattle.issuer_laws.specs.Parts.{AreApart, HasPart, IsDecidedAlone, LeavesOthers, NeedsNoOther, Parted};

/// Two messages, of which neither writes a row that the other needs: their order changes neither the reply to one of them nor the book.
pub fn messages_that_share_no_row_take_any_order()
    ensures { (rows : Rows) (one other : Frame) → ShareNoRow rows one other → TakeAnyOrder rows one other }
{}

/// Which rows a message may need follows from the message and the opening book alone: whatever is decided before it in its batch, it
/// looks at no other row, but for the budget of a prefix that has none, and writes no other.
pub fn a_message_needs_no_other_row()
    ensures { (opening : Rows) (before : List Frame) (frame : Frame) → NeedsNoOther opening before frame }
{}

/// A batch in parts, of which no two have a message each that may need the same row: a part that is decided alone, on a book that has
/// the rows that it may need, gets the replies that the whole batch has at its places, and its rows are those behind the whole batch.
/// All other rows stay. So parts are decided anywhere and in any order, and put together they are the whole batch.
pub fn parts_are_decided_alone()
    ensures part { (opening : Rows) (ms : Parted) (p : ℕ) (book : Rows) → AreApart opening ms → HasPart opening ms p book → IsDecidedAlone opening ms p book }
    ensures others { (opening : Rows) (ms : Parted) → LeavesOthers opening ms }
{}
