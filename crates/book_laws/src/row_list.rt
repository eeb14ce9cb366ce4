ghost use Rattle.std.specs.Prelude.{◌≡◌};
ghost use Rattle.book_laws.specs.Parts.{list_part, list_key, list_of, is_in};

use crate::part::Part;
use issuer_rows::RowVal;

/// A list of rows in a book's text: a member of the top object.
#[derive(Clone, Copy, Debug, PartialEq, Eq)]
pub enum RowList {
    /// The cards.
    Cards,
    /// What was spent with cards on days.
    Days,
    /// The stand-in budgets.
    Budgets,
    /// The originals that were decided.
    Originals,
    /// The originals whose reversals came ahead of them.
    Ahead,
    /// The accounts.
    Accounts,
}

/// The lists, in the order of their parts.
pub const ROW_LISTS: [RowList; 6] = [
    RowList::Cards,
    RowList::Days,
    RowList::Budgets,
    RowList::Originals,
    RowList::Ahead,
    RowList::Accounts,
];

impl RowList {
    /// The part of the text that the list is.
    pub fn part(self) -> Part
        ensures { result ≡ list_part self }
    {
        match self {
            RowList::Cards => Part::Cards,
            RowList::Days => Part::Days,
            RowList::Budgets => Part::Budgets,
            RowList::Originals => Part::Originals,
            RowList::Ahead => Part::Ahead,
            RowList::Accounts => Part::Accounts,
        }
    }

    /// The list's key in the top object.
    pub fn key(self) -> &'static str
        ensures { result.now ≡ list_key self }
    {
        match self {
            RowList::Cards => "cards",
            RowList::Days => "days",
            RowList::Budgets => "budgets",
            RowList::Originals => "originals",
            RowList::Ahead => "ahead",
            RowList::Accounts => "accounts",
        }
    }

    /// The list that a row with this value stands in.
    pub fn of(val: &RowVal) -> RowList
        ensures { result ≡ list_of val.now }
    {
        match val {
            RowVal::Card(_) => RowList::Cards,
            RowVal::Velocity(_) => RowList::Days,
            RowVal::Budget(_) => RowList::Budgets,
            RowVal::Kept(_) => RowList::Originals,
            RowVal::Ahead(_) => RowList::Ahead,
            RowVal::Account(_) => RowList::Accounts,
        }
    }

    /// Whether a row with this value stands in the list.
    pub fn has(self, val: &RowVal) -> bool
        ensures { result ≡ is_in self val.now }
    {
        self.part().number() == RowList::of(val).part().number()
    }
}
