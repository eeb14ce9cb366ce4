ghost use Rattle.std.specs.Prelude.{◌≡◌};
ghost use Rattle.book_laws.specs.Cards.{own_account, row_of_old_card, account_of_old_card};

use iso8583::{AccountId, Currency, Pan, PrintableUpTo};
use issuer_rows::{AccountRow, Balance, CardAccounts, CardRow, CardStatus, Count, Expiry};

/// A card of versions 1 and 2: it has its own money.
#[derive(Clone, Copy, PartialEq, Eq)]
pub struct OldCard {
    /// Its number.
    pub pan: Pan,
    /// Money that may be spent.
    pub available: Balance,
    /// Currency of its amounts.
    pub currency: Currency,
    /// Last month of use.
    pub expiry: Expiry,
    /// Whether it may be used.
    pub status: CardStatus,
    /// Approvals so far.
    pub approvals: Count,
    /// Most approvals in a day.
    pub day_count: Count,
    /// Most money spent in a day.
    pub day_amount: Balance,
}

impl OldCard {
    /// The card without its money, which its own account has.
    pub fn card_row(&self) -> CardRow
        ensures { result ≡ row_of_old_card self.now }
    {
        CardRow {
            expiry: self.expiry,
            status: self.status,
            approvals: self.approvals,
            day_count: self.day_count,
            day_amount: self.day_amount,
            accounts: CardAccounts::new(own_account(self.pan), None),
        }
    }

    /// The row of its own account, which has its money.
    pub fn account_row(&self) -> AccountRow
        ensures { result ≡ account_of_old_card self.now }
    {
        AccountRow {
            available: self.available,
            currency: self.currency,
        }
    }
}

/// The account that is named by a card's own digits.
#[tactic(auto, using(iso8583::proofs::AsciiLaws::digits_printable))]
pub fn own_account(pan: Pan) -> AccountId
    ensures { result ≡ own_account pan }
{
    AccountId(PrintableUpTo::of_text(pan.as_slice()))
}
