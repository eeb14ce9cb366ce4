ghost use Rattle.std.specs.Prelude.{◌≡◌, ◌↔◌, IsTrue};

use crate::balance::Balance;
use crate::card_accounts::CardAccounts;
use crate::card_status::CardStatus;
use crate::count::Count;
use crate::expiry::Expiry;

/// The row of a card: what the issuer keeps of it. The card's number is the row's key.
#[derive(Clone, Copy)]
pub struct CardRow {
    /// Last month of use.
    pub expiry: Expiry,
    /// Whether it may be used.
    pub status: CardStatus,
    /// Approvals so far.
    pub approvals: Count,
    /// Most approvals in a day.
    pub day_count: Count,
    /// Most money spent in a day.
    pub day_amount: Balance,
    /// Its accounts.
    pub accounts: CardAccounts,
}

impl CardRow {
    /// Whether the other is the same.
    pub fn is_same(&self, other: &CardRow) -> bool
        ensures { IsTrue result ↔ (self.now ≡ other.now) }
    {
        self.has_same_limits(other)
            && self.accounts.is_same(&other.accounts)
            && self.expiry == other.expiry
            && self.status == other.status
            && self.approvals == other.approvals
    }

    fn has_same_limits(&self, other: &CardRow) -> bool
        ensures { IsTrue result ↔ ((self.now.day_count ≡ other.now.day_count) × (self.now.day_amount ≡ other.now.day_amount)) }
    {
        self.day_count == other.day_count && self.day_amount == other.day_amount
    }
}
