use crate::account_words::AccountWords;
use crate::settlement_words::SettlementWords;
use issuer_rows::{Payer, Payment};
use std::fmt;

/// How an original is paid, for people: by what, and how it was reversed.
#[derive(Clone, Copy)]
pub struct PaymentWords(pub Payment);

impl fmt::Display for PaymentWords {
    ghost use Rattle.std.specs.Prelude.{Some};
    ghost use Rattle.reason_text.specs.Words.{payment_words};

    ghost output = { λ words. Some (payment_words words.0) };

    fn fmt<W: fmt::Write>(&self, f: &mut fmt::Formatter<W>) -> fmt::Result {
        let settlement = SettlementWords(self.0.settlement);
        match self.0.payer {
            Payer::Account(id) => {
                let id = AccountWords(id);
                write!(f, "paid by account {id}{settlement}")
            }
            Payer::Budget => write!(f, "paid by the budget{settlement}"),
        }
    }
}
