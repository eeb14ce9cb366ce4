ghost use Rattle.std.specs.Prelude.{◌≡◌};
ghost use Rattle.json.specs.Print.{print_from};
ghost use Rattle.book_laws.specs.Text.{rows_of, ends_after};
ghost use Rattle.book_text.specs.Left.{entries_tokens};
ghost use Rattle.book_json.specs.ReadsOn.{pairs_of};

use crate::row::Row;
use book_laws::RowList;

/// Some entries of a list in a book's text, and their rows: the text is what is written of these.
#[derive(Drop)]
pub(crate) struct ReadShare<'a> {
    pub(crate) list: RowList,
    // Whether an entry of the list stands before them.
    pub(crate) later: bool,
    pub(crate) text: &'a [u8],
    pub(crate) rows: Vec<Row>,
    // Whether an entry of the list stands before what is behind them.
    pub(crate) goes_on: bool,
    ghost all: { rows_of list (pairs_of rows.items) ≡ pairs_of rows.items },
    ghost made: { text.now ≡ print_from later (entries_tokens list (pairs_of rows.items)) },
    ghost ends: { goes_on ≡ ends_after later (entries_tokens list (pairs_of rows.items)) },
}
