ghost use Rattle.std.specs.Prelude.{◌≡◌, ◌↔◌, IsTrue};

use crate::acquirer::Acquirer;
use crate::amount::Amount;
use crate::currency::Currency;
use crate::identity::Identity;
use crate::local_stamp::LocalStamp;
use crate::pan::Pan;
use crate::processing::Processing;
use crate::retrieval::Retrieval;
use crate::stan::Stan;
use crate::terminal::Terminal;
use crate::transmission::Transmission;

/// The elements of a message that its reply repeats (ISO 8583:1993).
#[derive(Clone, Copy)]
pub struct Transaction {
    /// Element 2.
    pub pan: Pan,
    /// Element 3.
    pub processing: Processing,
    /// Element 4. In a partial reversal it is the amount that stays.
    pub amount: Amount,
    /// Element 7.
    pub transmission: Transmission,
    /// Element 11.
    pub stan: Stan,
    /// Element 12.
    pub stamp: LocalStamp,
    /// Element 32.
    pub acquirer: Acquirer,
    /// Element 37, if it is present.
    pub retrieval: Option<Retrieval>,
    /// Element 41.
    pub terminal: Terminal,
    /// Element 49.
    pub currency: Currency,
}

impl Transaction {
    /// What names the message: elements 32, 11 and 12.
    pub fn identity(&self) -> Identity
        ensures { result ≡ record { acquirer = self.now.acquirer; stan = self.now.stan; stamp = self.now.stamp } }
    {
        Identity {
            acquirer: self.acquirer,
            stan: self.stan,
            stamp: self.stamp,
        }
    }

    /// Whether the other is the same.
    pub fn is_same(&self, other: &Transaction) -> bool
        ensures { IsTrue result ↔ (self.now ≡ other.now) }
    {
        self.has_same_card(other) && self.has_same_trace(other) && self.has_same_origin(other)
    }

    fn has_same_card(&self, other: &Transaction) -> bool
        ensures { IsTrue result
            ↔ ((self.now.pan ≡ other.now.pan)
            × (self.now.processing ≡ other.now.processing)
            × (self.now.amount ≡ other.now.amount)
            × (self.now.currency ≡ other.now.currency)) }
    {
        self.pan == other.pan
            && self.processing == other.processing
            && self.amount == other.amount
            && self.currency == other.currency
    }

    fn has_same_trace(&self, other: &Transaction) -> bool
        ensures { IsTrue result
            ↔ ((self.now.transmission ≡ other.now.transmission)
            × (self.now.stan ≡ other.now.stan)
            × (self.now.stamp ≡ other.now.stamp)) }
    {
        self.transmission == other.transmission
            && self.stan == other.stan
            && self.stamp == other.stamp
    }

    fn has_same_origin(&self, other: &Transaction) -> bool
        ensures { IsTrue result
            ↔ ((self.now.acquirer ≡ other.now.acquirer)
            × (self.now.retrieval ≡ other.now.retrieval)
            × (self.now.terminal ≡ other.now.terminal)) }
    {
        self.acquirer == other.acquirer
            && self.retrieval == other.retrieval
            && self.terminal == other.terminal
    }
}
