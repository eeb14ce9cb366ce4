use crate::account_words::AccountWords;
use issuer_rows::CardAccounts;
use std::fmt;

/// The accounts of a card for people, as `A-MAIN and A-SAVE`.
#[derive(Clone, Copy)]
pub struct AccountsWords(pub CardAccounts);

impl fmt::Display for AccountsWords {
    ghost use Rattle.std.specs.Prelude.{Some};
    ghost use Rattle.reason_text.specs.Words.{accounts_words};

    ghost output = { λ words. Some (accounts_words words.0) };

    fn fmt<W: fmt::Write>(&self, f: &mut fmt::Formatter<W>) -> fmt::Result {
        let first = AccountWords(self.0.first());
        match self.0.second() {
            Some(second) => {
                let second = AccountWords(second);
                write!(f, "{first} and {second}")
            }
            None => write!(f, "{first}"),
        }
    }
}
