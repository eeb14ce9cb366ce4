ghost use Rattle.std.specs.Prelude.{◌≡◌, ◌≤◌, Some, None, IfSome};
ghost use Rattle.issuer_rows.specs.Kept.{approval_of_outcome, payment_of_outcome, stay_of_payment};
ghost use Rattle.book_laws.specs.Originals.{payer_of, settlement_of, payment_by, payment_of, posted, unposted, account_of_payment, paid_of_payment};

use crate::old_card::own_account;
use crate::paid::Paid;
use iso8583::{
    AccountId, Action, Amount, Approval, DeclineCode, Identity, OriginalKind, Pan, Processing,
};
use issuer_rows::{Kept, OriginalOutcome, Payer, Payment, Settlement, UnpostedAction};

/// What a book's text says of an original.
#[derive(Clone, Copy, PartialEq, Eq)]
pub struct OriginalEntry {
    /// The account that paid, if one did.
    pub account: Option<AccountId>,
    /// The action that it was answered.
    pub action: Action,
    /// Its amount.
    pub amount: Amount,
    /// The approval code that it was answered, if it was.
    pub approval: Option<Approval>,
    /// A request or an advice.
    pub kind: OriginalKind,
    /// What paid.
    pub paid: Paid,
    /// Its card.
    pub pan: Pan,
    /// Its processing code.
    pub processing: Processing,
    /// The identity of its reversal, if it has one.
    pub reversed: Option<Identity>,
    /// How much of its amount stays paid.
    pub stay: Amount,
}

impl OriginalEntry {
    ghost use Rattle.book_laws.specs.Originals.{kept_of, outcome_by, entry_of_kept};

    /// What version 3 says of an original.
    pub fn of(kept: &Kept) -> OriginalEntry
        ensures entry { result ≡ entry_of_kept kept.now }
        ensures back { kept_of result ≡ Some kept.now }
    {
        let outcome = kept.outcome();
        let amount = kept.amount();
        OriginalEntry {
            account: account_of(&outcome),
            action: outcome.action(),
            amount,
            approval: approval_of(&outcome),
            kind: outcome.kind(),
            paid: paid_of(&outcome),
            pan: kept.card(),
            processing: kept.processing(),
            reversed: outcome.reversal(),
            stay: outcome.stay(amount),
        }
    }

    /// What is kept of the original, if it can be.
    pub fn kept(&self) -> Option<Kept>
        ensures { result ≡ kept_of self.now }
    {
        let payer = payer_of(self.paid, self.account, self.pan)?;
        let settlement = settlement_of(self.stay, self.reversed);
        let payment = payment_of(payer, self.amount, self.stay, settlement)?;
        let outcome = self.outcome_by(payment)?;
        Kept::new(self.pan, self.amount, self.processing, outcome)
    }

    // What became of it, where it was paid so.
    fn outcome_by(&self, payment: Option<Payment>) -> Option<OriginalOutcome>
        ensures value { result ≡ outcome_by self.now payment }
        ensures payment { IfSome result (λ o. payment_of_outcome o ≡ payment) }
    {
        match payment {
            Some(payment) => posted(self.kind, self.action, self.approval, payment),
            None => unposted(self.kind, self.action, self.approval, self.reversed),
        }
    }
}

// What paid, if anything did: an account is named exactly where one paid.
fn payer_of(paid: Paid, account: Option<AccountId>, pan: Pan) -> Option<Option<Payer>>
    ensures { result ≡ payer_of paid account pan }
{
    match (paid, account) {
        (Paid::Nothing, None) => Some(None),
        (Paid::Card, None) => Some(Some(Payer::Account(own_account(pan)))),
        (Paid::Account, Some(id)) => Some(Some(Payer::Account(id))),
        (Paid::Budget, None) => Some(Some(Payer::Budget)),
        _ => None,
    }
}

// How it was reversed, if it was: so much stays.
fn settlement_of(stay: Amount, reversed: Option<Identity>) -> Option<Settlement>
    ensures { result ≡ settlement_of stay reversed }
{
    match reversed {
        Some(reversal) => Some(Settlement { reversal, stay }),
        None => None,
    }
}

// Paid by this: the whole amount stays until a reversal, and no more than that from then on.
fn payment_by(
    payer: Payer,
    amount: Amount,
    stay: Amount,
    settlement: Option<Settlement>,
) -> Option<Payment>
    ensures value { result ≡ payment_by payer amount stay settlement }
    ensures stay { IfSome result (λ payment. stay_of_payment amount (Some payment) ≤ amount) }
{
    match settlement {
        None if stay == amount => Some(Payment {
            payer,
            settlement: None,
        }),
        Some(settled) if settled.stay <= amount => Some(Payment {
            payer,
            settlement: Some(settled),
        }),
        _ => None,
    }
}

// How it is paid, if anything paid: nothing stays where nothing did.
fn payment_of(
    payer: Option<Payer>,
    amount: Amount,
    stay: Amount,
    settlement: Option<Settlement>,
) -> Option<Option<Payment>>
    ensures value { result ≡ payment_of payer amount stay settlement }
    ensures stay { IfSome result (λ payment. stay_of_payment amount payment ≤ amount) }
{
    match payer {
        Some(by) => Some(Some(payment_by(by, amount, stay, settlement)?)),
        None if stay == Amount::ZERO => Some(None),
        None => None,
    }
}

// A posted original: a request with action 000, which has an approval code, or an advice with action 901.
fn posted(
    kind: OriginalKind,
    action: Action,
    approval: Option<Approval>,
    payment: Payment,
) -> Option<OriginalOutcome>
    ensures value { result ≡ posted kind action approval payment }
    ensures payment { IfSome result (λ o. payment_of_outcome o ≡ Some payment) }
{
    match (kind, approval) {
        (OriginalKind::Request, Some(code)) if action == Action::APPROVED => {
            Some(OriginalOutcome::Approved(code, payment))
        }
        (OriginalKind::Advice, None) if action == Action::LIABILITY_ACCEPTED => {
            Some(OriginalOutcome::Accepted(payment))
        }
        _ => None,
    }
}

// An original that isn't posted: it has another action, and no approval code.
fn unposted(
    kind: OriginalKind,
    action: Action,
    approval: Option<Approval>,
    reversed: Option<Identity>,
) -> Option<OriginalOutcome>
    ensures value { result ≡ unposted kind action approval reversed }
    ensures payment { IfSome result (λ o. payment_of_outcome o ≡ None) }
{
    if approval.is_some() {
        return None;
    }
    match kind {
        OriginalKind::Request => Some(OriginalOutcome::Declined(
            DeclineCode::new(action)?,
            reversed,
        )),
        OriginalKind::Advice => Some(OriginalOutcome::Acknowledged(
            UnpostedAction::new(action)?,
            reversed,
        )),
    }
}

// The account that paid, if one did.
fn account_of(outcome: &OriginalOutcome) -> Option<AccountId>
    ensures { result ≡ account_of_payment (payment_of_outcome outcome.now) }
{
    match &outcome.payment()?.payer {
        Payer::Account(id) => Some(*id),
        Payer::Budget => None,
    }
}

// The word for what paid.
fn paid_of(outcome: &OriginalOutcome) -> Paid
    ensures { result ≡ paid_of_payment (payment_of_outcome outcome.now) }
{
    let Some(payment) = outcome.payment() else {
        return Paid::Nothing;
    };
    match &payment.payer {
        Payer::Account(_) => Paid::Account,
        Payer::Budget => Paid::Budget,
    }
}

// The approval code of an approved request.
fn approval_of(outcome: &OriginalOutcome) -> Option<Approval>
    ensures { result ≡ approval_of_outcome outcome.now }
{
    match outcome {
        OriginalOutcome::Approved(code, _) => Some(*code),
        _ => None,
    }
}
