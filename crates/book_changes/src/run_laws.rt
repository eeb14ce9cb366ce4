ghost use Rattle.std.specs.Prelude.{List};
ghost use Rattle.issuer_words.specs.Words.{Frame, Reversal, Rows};
ghost use Rattle.book_changes.specs.Reversible.{IsAgainNothing, IsDone, RefusesNoneForNow};
ghost use Rattle.book_changes.specs.Runs.{StaysSound};

/// Nothing is wrong with a book behind any batch where nothing was wrong with it before: no row is lost, each card keeps its number and
/// its accounts, what paid for an original stays, and no backing grows.
pub fn a_book_stays_a_book()
    ensures { (rows : Rows) (frames : List Frame) → StaysSound rows frames }
{}

/// On a book with which nothing is wrong, whose days have the approvals and the money of their requests that can still be reversed,
/// and whose budgets have rows where they paid: the first reversal of a posted original, of its card and its kind and of a part that
/// is one, is answered 400, whatever came before it.
pub fn a_right_reversal_is_done()
    ensures { (rows : Rows) (before : List Frame) (v : Reversal) → IsDone rows before v }
{}

/// On such a book no reversal of any batch is refused for want of a row of a payer or a day, nor because one of these has too much or too
/// little; so a batch that is sent once more, its requests, advices and reversals as repeats, changes nothing.
pub fn a_batch_of_such_a_book_again_changes_nothing()
    ensures refused { (rows : Rows) (frames : List Frame) → RefusesNoneForNow rows frames }
    ensures again { (rows : Rows) (frames : List Frame) → IsAgainNothing rows frames }
{}
