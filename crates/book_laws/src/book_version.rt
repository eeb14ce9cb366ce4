ghost use Rattle.std.specs.Prelude.{◌≡◌};
ghost use Rattle.book_laws.specs.Parts.{version_number, has_list, has_card_money};

use crate::row_list::RowList;

/// A version of the book's text, which is JSON.
#[derive(Clone, Copy, Debug, PartialEq, Eq)]
pub enum BookVersion {
    /// A card has its own money; no original is marked.
    One,
    /// A card has its own money; originals may be marked.
    Two,
    /// Accounts have the money.
    Three,
}

impl BookVersion {
    /// The number that stands in the text.
    pub fn number(self) -> u64
        ensures { result ≡ version_number self }
    {
        match self {
            BookVersion::One => 1,
            BookVersion::Two => 2,
            BookVersion::Three => 3,
        }
    }

    /// Whether the version has the list.
    pub fn has_list(self, list: RowList) -> bool
        ensures { result ≡ has_list self list }
    {
        match list {
            RowList::Ahead => !matches!(self, BookVersion::One),
            RowList::Accounts => matches!(self, BookVersion::Three),
            _ => true,
        }
    }

    /// Whether cards have their own money in it.
    pub fn has_card_money(self) -> bool
        ensures { result ≡ has_card_money self }
    {
        !matches!(self, BookVersion::Three)
    }
}
