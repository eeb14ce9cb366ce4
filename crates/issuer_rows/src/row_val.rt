ghost use Rattle.std.specs.Prelude.{◌≡◌, ◌↔◌, IsTrue, Some};
ghost use Rattle.issuer_rows.specs.RowVal.{IsOfKind};

use crate::account_row::AccountRow;
use crate::budget_row::BudgetRow;
use crate::card_row::CardRow;
use crate::kept::Kept;
use crate::mark::Mark;
use crate::row_key::RowKey;
use crate::velocity_row::VelocityRow;

/// The value of a row of the book.
#[derive(Clone, Copy)]
pub enum RowVal {
    /// Of a card.
    Card(CardRow),
    /// Of a card's day.
    Velocity(VelocityRow),
    /// Of a stand-in budget.
    Budget(BudgetRow),
    /// Of a request or an advice that was decided.
    Kept(Kept),
    /// Of a request or an advice whose reversal came ahead of it.
    Ahead(Mark),
    /// Of an account.
    Account(AccountRow),
}

impl RowVal {
    /// Whether the other is the same.
    pub fn is_same(&self, other: &RowVal) -> bool
        ensures { IsTrue result ↔ (self.now ≡ other.now) }
    {
        match (self, other) {
            (RowVal::Card(mine), RowVal::Card(theirs)) => mine.is_same(theirs),
            (RowVal::Velocity(mine), RowVal::Velocity(theirs)) => mine == theirs,
            (RowVal::Budget(mine), RowVal::Budget(theirs)) => mine == theirs,
            (RowVal::Kept(mine), RowVal::Kept(theirs)) => mine.is_same(theirs),
            (RowVal::Ahead(mine), RowVal::Ahead(theirs)) => mine.is_same(theirs),
            (RowVal::Account(mine), RowVal::Account(theirs)) => mine == theirs,
            _ => false,
        }
    }

    /// Makes this a copy of the other. Where they are of one kind, no more is copied than values of that kind have.
    pub fn copy_from(&mut self, other: &RowVal)
        ensures { self.new ≡ other.now }
    {
        match (&mut *self, other) {
            (RowVal::Card(mine), RowVal::Card(theirs)) => *mine = *theirs,
            (RowVal::Velocity(mine), RowVal::Velocity(theirs)) => *mine = *theirs,
            (RowVal::Budget(mine), RowVal::Budget(theirs)) => *mine = *theirs,
            (RowVal::Kept(mine), RowVal::Kept(theirs)) => *mine = *theirs,
            (RowVal::Ahead(mine), RowVal::Ahead(theirs)) => *mine = *theirs,
            (RowVal::Account(mine), RowVal::Account(theirs)) => *mine = *theirs,
            (mine, theirs) => *mine = *theirs,
        }
    }

    /// Writes a copy of this to a place of the caller's, over what stands there.
    pub fn copy_to(&self, place: &mut Option<RowVal>)
        ensures { place.new ≡ Some self.now }
    {
        match place {
            Some(there) => there.copy_from(self),
            None => *place = Some(*self),
        }
    }

    /// Whether the value is of the key's kind.
    pub fn suits(&self, key: &RowKey) -> bool
        ensures { IsTrue result ↔ IsOfKind key.now self.now }
    {
        matches!(
            (key, self),
            (RowKey::Card(_), RowVal::Card(_))
                | (RowKey::Velocity(_, _), RowVal::Velocity(_))
                | (RowKey::Budget(_), RowVal::Budget(_))
                | (RowKey::Original(_), RowVal::Kept(_) | RowVal::Ahead(_))
                | (RowKey::Account(_), RowVal::Account(_))
        )
    }
}
