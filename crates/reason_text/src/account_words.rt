use iso_shown::MaskedPan;
use iso8583::{AccountId, Pan};
use std::fmt;

/// An account for people, masked as a card number where it is named as a card may be: 12 to 19 digits.
#[derive(Clone, Copy)]
pub struct AccountWords(pub AccountId);

impl fmt::Display for AccountWords {
    ghost use Rattle.std.specs.Prelude.{Some};
    ghost use Rattle.reason_text.specs.Words.{account_words};

    ghost output = { λ words. Some (account_words words.0) };

    fn fmt<W: fmt::Write>(&self, f: &mut fmt::Formatter<W>) -> fmt::Result {
        match Pan::new(self.0.as_slice()) {
            Some(pan) => {
                let pan = MaskedPan::new(pan);
                write!(f, "{pan}")
            }
            None => f.write_str(self.0.as_str()),
        }
    }
}
