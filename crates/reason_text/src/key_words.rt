use crate::account_words::AccountWords;
use crate::identity_words::IdentityWords;
use iso_shown::MaskedPan;
use issuer_rows::RowKey;
use std::fmt;

/// The key of a row for people, as `account A-MAIN`. Card numbers are masked.
#[derive(Clone, Copy)]
pub struct KeyWords(pub RowKey);

impl fmt::Display for KeyWords {
    ghost use Rattle.std.specs.Prelude.{Some};
    ghost use Rattle.reason_text.specs.Words.{key_words};

    ghost output = { λ words. Some (key_words words.0) };

    fn fmt<W: fmt::Write>(&self, f: &mut fmt::Formatter<W>) -> fmt::Result {
        match &self.0 {
            RowKey::Card(pan) => {
                let pan = MaskedPan::new(*pan);
                write!(f, "card {pan}")
            }
            RowKey::Velocity(pan, day) => {
                let (pan, day) = (MaskedPan::new(*pan), day.as_str());
                write!(f, "day {pan} {day}")
            }
            RowKey::Budget(prefix) => {
                let prefix = prefix.as_str();
                write!(f, "budget {prefix}")
            }
            RowKey::Original(identity) => {
                let identity = IdentityWords(*identity);
                write!(f, "original {identity}")
            }
            RowKey::Account(id) => {
                let id = AccountWords(*id);
                write!(f, "account {id}")
            }
        }
    }
}
