ghost use Rattle.std.specs.Prelude.{◌≡◌, ◌≤◌, ◌↔◌, IsTrue};
ghost use Rattle.std.specs.Option.{SomeIff};
ghost use Rattle.issuer_rows.specs.Kept.{IsKept, settled};

use crate::original_outcome::OriginalOutcome;
use iso8583::{Amount, Identity, Pan, Processing};
use std::marker::Model;

/// What is kept of a request or an advice that was decided. No more than its amount stays paid.
#[derive(Clone, Copy)]
pub struct Kept {
    card: Pan,
    amount: Amount,
    processing: Processing,
    outcome: OriginalOutcome,
}

impl Model for Kept {
    ghost use Rattle.issuer_rows.specs.Kept.{KeptOriginal, IsKept};

    ghost Value = { KeptOriginal };

    ghost view = { λ k. record { card = k.card; amount = k.amount; processing = k.processing; outcome = k.outcome } };

    ghost invariant = { λ k. IsKept (record { card = k.card; amount = k.amount; processing = k.processing; outcome = k.outcome }) };

    ghost inverse = { λ k. record { card = k.card; amount = k.amount; processing = k.processing; outcome = k.outcome } };
}

impl Kept {
    /// An original with this outcome, if no more than its amount stays paid.
    pub fn new(
        card: Pan,
        amount: Amount,
        processing: Processing,
        outcome: OriginalOutcome,
    ) -> Option<Kept>
        ensures { SomeIff result (IsKept (record { card = card; amount = amount; processing = processing; outcome = outcome })) (record { card = card; amount = amount; processing = processing; outcome = outcome }) }
    {
        if outcome.stay(amount) <= amount {
            Some(Kept {
                card,
                amount,
                processing,
                outcome,
            })
        } else {
            None
        }
    }

    /// The card of the message.
    pub fn card(&self) -> Pan
        ensures card { result ≡ self.now.card }
        ensures kept { IsKept self.now }
    {
        self.card
    }

    /// Its amount.
    pub fn amount(&self) -> Amount
        ensures { result ≡ self.now.amount }
    {
        self.amount
    }

    /// Its processing code.
    pub fn processing(&self) -> Processing
        ensures { result ≡ self.now.processing }
    {
        self.processing
    }

    /// What became of it.
    pub fn outcome(&self) -> OriginalOutcome
        ensures { result ≡ self.now.outcome }
    {
        self.outcome
    }

    /// The original, reversed by this message, of which so much stays where it is posted.
    pub fn settled(&self, by: Identity, stay: Amount) -> Kept
        requires { stay ≤ self.now.amount }
        ensures { result ≡ settled self.now by stay }
    {
        Kept {
            outcome: self.outcome.settled(by, stay),
            ..*self
        }
    }

    /// Whether the other is the same.
    pub fn is_same(&self, other: &Kept) -> bool
        ensures { IsTrue result ↔ (self.now ≡ other.now) }
    {
        self.card == other.card
            && self.amount == other.amount
            && self.processing == other.processing
            && self.outcome.is_same(&other.outcome)
    }
}
