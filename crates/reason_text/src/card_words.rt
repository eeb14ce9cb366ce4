use crate::accounts_words::AccountsWords;
use crate::status_words::StatusWords;
use issuer_rows::CardRow;
use std::fmt;

/// The row of a card for people.
#[derive(Clone, Copy)]
pub struct CardWords(pub CardRow);

impl fmt::Display for CardWords {
    ghost use Rattle.std.specs.Prelude.{Some};
    ghost use Rattle.reason_text.specs.Words.{card_words};

    ghost output = { λ words. Some (card_words words.0) };

    fn fmt<W: fmt::Write>(&self, f: &mut fmt::Formatter<W>) -> fmt::Result {
        let status = StatusWords(self.0.status);
        let expiry = self.0.expiry.as_str();
        let accounts = AccountsWords(self.0.accounts);
        let approvals = self.0.approvals.number();
        let (count, amount) = (self.0.day_count.number(), self.0.day_amount.minor());
        write!(
            f,
            "{status}, expires {expiry}, account {accounts}, approvals {approvals}, a day at most {count} and {amount}"
        )
    }
}
