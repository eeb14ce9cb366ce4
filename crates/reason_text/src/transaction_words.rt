use iso_shown::MaskedPan;
use iso8583::Transaction;
use std::fmt;

/// The elements that each message has, for people.
#[derive(Clone, Copy)]
pub struct TransactionWords<'a>(pub &'a Transaction);

impl fmt::Display for TransactionWords<'_> {
    ghost use Rattle.std.specs.Prelude.{Some};
    ghost use Rattle.reason_text.specs.Words.{transaction_words};

    ghost output = { λ words. Some (transaction_words words.0.now) };

    fn fmt<W: fmt::Write>(&self, f: &mut fmt::Formatter<W>) -> fmt::Result {
        let card = MaskedPan::new(self.0.pan);
        let (amount, currency) = (self.0.amount.minor(), self.0.currency.0.as_str());
        let (processing, stan) = (self.0.processing.0.as_str(), self.0.stan.as_str());
        let (stamp, acquirer) = (self.0.stamp.as_str(), self.0.acquirer.as_str());
        write!(
            f,
            " of card {card}, amount {amount}, currency {currency}, processing code {processing}, trace {stan}, time {stamp}, acquirer {acquirer}"
        )
    }
}
