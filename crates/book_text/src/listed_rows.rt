ghost use Rattle.std.specs.Prelude.{◌≡◌, ◌≤◌, length, map, slice_range};
ghost use Rattle.std.specs.Map.Iter.{deref_pair};
ghost use Rattle.issuer_rows.specs.Book.{AllOfKind};
ghost use Rattle.book_laws.specs.Text.{rows_of};
ghost use Rattle.book_text.specs.Back.{IsReadAsBook};
ghost use Rattle.book_text.specs.ByKind.{StandByKind, kind_of_list};

use crate::ranges::row_is_read;
use book_laws::RowList;
use issuer_rows::{RowKey, RowVal, SortedRows};
use std::marker::Model;

/// Rows of a book, or some of them, in the order of their keys. Those of a kind stand together.
#[derive(Drop)]
pub struct ListedRows<'a> {
    rows: &'a [(&'a RowKey, &'a RowVal)],
}

impl<'a> Model for ListedRows<'a> {
    ghost use Rattle.std.specs.Prelude.{List, map};
    ghost use Rattle.std.specs.Map.Iter.{deref_pair};
    ghost use Rattle.issuer_words.specs.Words.{RowKey, RowVal};
    ghost use Rattle.book_text.specs.ByKind.{StandByKind};

    ghost Value = { List (RowKey × RowVal) };

    ghost view = { λ listed. map deref_pair listed.rows.now };

    ghost invariant = { λ listed. StandByKind (map deref_pair listed.rows.now) };
}

impl<'a> ListedRows<'a> {
    /// These rows of a book, all of them.
    pub fn new(rows: &'a SortedRows<'_>) -> ListedRows<'a>
        requires { StandByKind rows.now }
        ensures rows { result ≡ rows.now }
        // The text of a book that has them is read as the book.
        ensures back { IsReadAsBook rows.now }
    {
        for (key, val) in rows.iter() {
            row_is_read(key, val);
        }
        ListedRows {
            rows: rows.as_slice(),
        }
    }

    /// How many rows there are.
    pub fn len(&self) -> usize
        ensures { result ≡ length self.now }
    {
        self.rows.len()
    }

    /// The rows, where they stand.
    pub fn as_slice(&self) -> &'a [(&'a RowKey, &'a RowVal)]
        ensures { map deref_pair result.now ≡ self.now }
    {
        self.rows
    }

    /// The rows from one place up to another.
    pub fn range(&self, at: usize, end: usize) -> ListedRows<'a>
        requires some { at ≤ end }
        requires within { end ≤ length self.now }
        ensures { result ≡ slice_range self.now at end }
    {
        ListedRows {
            rows: &self.rows[at..end],
        }
    }

    /// How many rows stand before those whose kind is that of the list.
    pub fn first_of_kind(&self, list: RowList) -> usize
        ensures { result ≤ length self.now }
    {
        let kind = kind_of_list(list);
        self.rows.partition_point(|row| row.0.kind() < kind)
    }

    /// The rows whose kind is that of the list: where all rows are that stand in it.
    pub fn of_kind(&self, list: RowList) -> &'a [(&'a RowKey, &'a RowVal)]
        ensures rows { rows_of list (map deref_pair result.now) ≡ rows_of list self.now }
        ensures kinds { AllOfKind (map deref_pair result.now) }
    {
        let kind = kind_of_list(list);
        let first = self.rows.partition_point(|row| row.0.kind() < kind);
        let from = &self.rows[first..];
        let count = from.partition_point(|row| row.0.kind() <= kind);
        &from[..count]
    }
}

// The place of the kind of a list's rows among the five.
fn kind_of_list(list: RowList) -> u8
    ensures { result ≡ kind_of_list list }
{
    match list {
        RowList::Cards => 0,
        RowList::Days => 1,
        RowList::Budgets => 2,
        RowList::Originals | RowList::Ahead => 3,
        RowList::Accounts => 4,
    }
}
