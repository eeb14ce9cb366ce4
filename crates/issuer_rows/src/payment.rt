ghost use Rattle.std.specs.Prelude.{◌≡◌, ◌↔◌, IsTrue, option_map};
ghost use Rattle.issuer_rows.specs.Kept.{stay_of_settlement, settled_payment};

use crate::payer::Payer;
use crate::settlement::Settlement;
use iso8583::{Amount, Identity};

/// How a posted original is paid.
#[derive(Clone, Copy)]
pub struct Payment {
    /// What paid.
    pub payer: Payer,
    /// How it was reversed, if it was; until then its whole amount stays.
    pub settlement: Option<Settlement>,
}

impl Payment {
    /// The identity of its reversal, if it has one.
    pub fn reversal(&self) -> Option<Identity>
        ensures { result ≡ option_map (λ s. s.reversal) self.now.settlement }
    {
        match &self.settlement {
            Some(settlement) => Some(settlement.reversal),
            None => None,
        }
    }

    /// How much of an amount stays paid: all of it until it is reversed.
    pub fn stay(&self, amount: Amount) -> Amount
        ensures { result ≡ stay_of_settlement amount self.now.settlement }
    {
        match &self.settlement {
            Some(settlement) => settlement.stay,
            None => amount,
        }
    }

    /// The payment, reversed by this message, of which so much stays.
    pub fn settled(&self, by: Identity, stay: Amount) -> Payment
        ensures { result ≡ settled_payment self.now by stay }
    {
        Payment {
            payer: self.payer,
            settlement: Some(Settlement { reversal: by, stay }),
        }
    }

    /// Whether the other is the same.
    pub fn is_same(&self, other: &Payment) -> bool
        ensures { IsTrue result ↔ (self.now ≡ other.now) }
    {
        self.payer == other.payer
            && match (&self.settlement, &other.settlement) {
                (Some(mine), Some(theirs)) => mine.is_same(theirs),
                (None, None) => true,
                _ => false,
            }
    }
}
