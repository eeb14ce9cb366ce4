ghost use Rattle.std.specs.Prelude.{◌≡◌};
ghost use Rattle.issuer_rows.specs.Funds.{balance_of, payer_of};

use crate::account_row::AccountRow;
use crate::balance::Balance;
use crate::budget_row::BudgetRow;
use crate::payer::Payer;
use iso8583::{AccountId, PanPrefix};

/// What pays for a message, with its row.
#[derive(Clone, Copy, PartialEq, Eq)]
pub enum Funds {
    /// An account.
    Account(AccountId, AccountRow),
    /// The stand-in budget of a prefix.
    Budget(PanPrefix, BudgetRow),
}

impl Funds {
    /// How much there is: what is available of the account, or what is left of the budget.
    pub fn balance(&self) -> Balance
        ensures { result ≡ balance_of self.now }
    {
        match self {
            Funds::Account(_, row) => row.available,
            Funds::Budget(_, row) => row.left,
        }
    }

    /// What an original keeps of these funds: its payer.
    pub fn payer(&self) -> Payer
        ensures { result ≡ payer_of self.now }
    {
        match self {
            Funds::Account(id, _) => Payer::Account(*id),
            Funds::Budget(_, _) => Payer::Budget,
        }
    }
}
