ghost use Rattle.std.specs.Prelude.{◌≡◌, IsTrue};
ghost use Rattle.iso_laws.specs.Messages.{transaction_of};
ghost use Rattle.app_reports.specs.Sought.{is_met_by, is_met_in};

use iso8583::{Message, Transaction};
use issuer_rows::Frame;

/// Which messages of a batch are sought.
#[derive(Clone, Copy)]
pub enum Sought<'a> {
    /// Those of this systems trace audit number (ISO 8583:1993, element 11).
    Trace(&'a str),
    /// Those of this card (ISO 8583:1993, element 2).
    Card(&'a str),
}

impl Sought<'_> {
    /// Whether the body is such a message.
    pub fn is_met_by(&self, frame: &Frame) -> bool
        ensures { result ≡ is_met_by self.now frame.now }
    {
        match frame {
            Frame::Good(message) => self.is_met_in(transaction_of(message)),
            Frame::Bad(_) => false,
        }
    }

    // Whether these elements are such a message's.
    fn is_met_in(&self, transaction: &Transaction) -> bool
        ensures { result ≡ is_met_in self.now transaction.now }
    {
        match self {
            Sought::Trace(trace) => transaction.stan.as_str() == *trace,
            Sought::Card(card) => transaction.pan.as_str() == *card,
        }
    }
}

// The elements that each message has.
fn transaction_of(message: &Message) -> &Transaction
    ensures { result.now ≡ transaction_of message.now }
{
    match message {
        Message::Request(request) => &request.transaction,
        Message::Advice(advice) => &advice.transaction,
        Message::Reversal(reversal) => &reversal.transaction,
    }
}
