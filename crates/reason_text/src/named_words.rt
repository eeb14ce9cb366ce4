use crate::account_words::AccountWords;
use iso8583::AccountId;
use std::fmt;

/// The account that a message names, for people; nothing where it names none.
#[derive(Clone, Copy)]
pub struct NamedWords(pub Option<AccountId>);

impl fmt::Display for NamedWords {
    ghost use Rattle.std.specs.Prelude.{Some};
    ghost use Rattle.reason_text.specs.Words.{named_words};

    ghost output = { λ words. Some (named_words words.0) };

    fn fmt<W: fmt::Write>(&self, f: &mut fmt::Formatter<W>) -> fmt::Result {
        match &self.0 {
            Some(id) => {
                let id = AccountWords(*id);
                write!(f, ", account {id}")
            }
            None => Ok(()),
        }
    }
}
