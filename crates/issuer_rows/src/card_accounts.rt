ghost use Rattle.std.specs.Prelude.{◌≡◌, ◌↔◌, option_copied, IsTrue};
ghost use Rattle.issuer_rows.specs.CardAccounts.{account_of, is_second};

use iso8583::AccountId;
use std::marker::Model;

/// The accounts of a card: one that pays where a message names none, and perhaps another that a message may name.
#[derive(Clone, Copy)]
pub struct CardAccounts {
    first: AccountId,
    second: Option<AccountId>,
}

impl Model for CardAccounts {
    ghost use Rattle.issuer_rows.specs.CardAccounts.{AccountsOfCard};

    ghost Value = { AccountsOfCard };

    ghost view = { λ a. record { first = a.first; second = a.second } };

    ghost inverse = { λ a. record { first = a.first; second = a.second } };
}

impl CardAccounts {
    /// A card's accounts: the one that pays where a message names none, and perhaps another.
    pub fn new(first: AccountId, second: Option<AccountId>) -> CardAccounts
        ensures { result ≡ record { first = first; second = second } }
    {
        CardAccounts { first, second }
    }

    /// The account that pays where a message names none.
    pub fn first(&self) -> AccountId
        ensures { result ≡ self.now.first }
    {
        self.first
    }

    /// The other account, if there is one.
    pub fn second(&self) -> Option<AccountId>
        ensures { result ≡ self.now.second }
    {
        self.second
    }

    /// The account that a message names, if it is one of these; where it names none, the first.
    pub fn account_of<'a>(&'a self, named: &'a Option<AccountId>) -> Option<&'a AccountId>
        ensures { option_copied result ≡ account_of self.now named.now }
    {
        let Some(id) = named else {
            return Some(&self.first);
        };
        if *id == self.first || self.is_second(id) {
            Some(id)
        } else {
            None
        }
    }

    // Whether this is the second account.
    fn is_second(&self, id: &AccountId) -> bool
        ensures { result ≡ is_second self.now.second id.now }
    {
        match &self.second {
            Some(second) => id == second,
            None => false,
        }
    }

    /// Whether the others are the same.
    pub fn is_same(&self, other: &CardAccounts) -> bool
        ensures { IsTrue result ↔ (self.now ≡ other.now) }
    {
        self.first == other.first && self.second == other.second
    }
}
