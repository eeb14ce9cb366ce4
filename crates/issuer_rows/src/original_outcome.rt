ghost use Rattle.std.specs.Prelude.{◌≡◌, ◌↔◌, IsTrue};
ghost use Rattle.issuer_rows.specs.Kept.{kind_of_outcome, action_of_outcome, payment_of_outcome, reversal_of_outcome, stay_of_payment, settled_outcome};

use crate::payment::Payment;
use crate::unposted_action::UnpostedAction;
use iso8583::{Action, Amount, Approval, DeclineCode, Identity, OriginalKind};

/// What became of an original. It is posted exactly where it is paid: a request with action 000, which has an approval
/// code, or an advice with action 901.
#[derive(Clone, Copy)]
pub enum OriginalOutcome {
    /// A request, action 000.
    Approved(Approval, Payment),
    /// A request, any other action; and the identity of its reversal, if it has one.
    Declined(DeclineCode, Option<Identity>),
    /// An advice, action 901.
    Accepted(Payment),
    /// An advice, any other action; and the identity of its reversal, if it has one.
    Acknowledged(UnpostedAction, Option<Identity>),
}

impl OriginalOutcome {
    /// A request or an advice.
    pub fn kind(&self) -> OriginalKind
        ensures { result ≡ kind_of_outcome self.now }
    {
        match self {
            OriginalOutcome::Approved(_, _) | OriginalOutcome::Declined(_, _) =>
                OriginalKind::Request,
            OriginalOutcome::Accepted(_) | OriginalOutcome::Acknowledged(_, _) =>
                OriginalKind::Advice,
        }
    }

    /// The action that it was answered (element 39).
    pub fn action(&self) -> Action
        ensures { result ≡ action_of_outcome self.now }
    {
        match self {
            OriginalOutcome::Approved(_, _) => Action::APPROVED,
            OriginalOutcome::Declined(code, _) => code.action(),
            OriginalOutcome::Accepted(_) => Action::LIABILITY_ACCEPTED,
            OriginalOutcome::Acknowledged(code, _) => code.action(),
        }
    }

    /// How it is paid, if it is posted.
    pub fn payment(&self) -> Option<Payment>
        ensures { result ≡ payment_of_outcome self.now }
    {
        match self {
            OriginalOutcome::Approved(_, payment) | OriginalOutcome::Accepted(payment) => Some(
                *payment,
            ),
            OriginalOutcome::Declined(_, _) | OriginalOutcome::Acknowledged(_, _) => None,
        }
    }

    /// The identity of its reversal, if it has one.
    pub fn reversal(&self) -> Option<Identity>
        ensures { result ≡ reversal_of_outcome self.now }
    {
        match self {
            OriginalOutcome::Approved(_, payment) | OriginalOutcome::Accepted(payment) =>
                payment.reversal(),
            OriginalOutcome::Declined(_, by) | OriginalOutcome::Acknowledged(_, by) => *by,
        }
    }

    /// How much of its amount stays paid: nothing where it isn't posted.
    pub fn stay(&self, amount: Amount) -> Amount
        ensures { result ≡ stay_of_payment amount (payment_of_outcome self.now) }
    {
        match self {
            OriginalOutcome::Approved(_, payment) | OriginalOutcome::Accepted(payment) =>
                payment.stay(amount),
            OriginalOutcome::Declined(_, _) | OriginalOutcome::Acknowledged(_, _) => Amount::ZERO,
        }
    }

    /// The outcome where this message reverses it, of which so much stays where it is posted.
    pub fn settled(&self, by: Identity, stay: Amount) -> OriginalOutcome
        ensures { result ≡ settled_outcome self.now by stay }
    {
        match self {
            OriginalOutcome::Approved(code, payment) => OriginalOutcome::Approved(
                *code,
                payment.settled(by, stay),
            ),
            OriginalOutcome::Declined(code, _) => OriginalOutcome::Declined(*code, Some(by)),
            OriginalOutcome::Accepted(payment) => OriginalOutcome::Accepted(payment.settled(
                by, stay,
            )),
            OriginalOutcome::Acknowledged(code, _) => OriginalOutcome::Acknowledged(
                *code,
                Some(by),
            ),
        }
    }

    /// Whether the other is the same.
    pub fn is_same(&self, other: &OriginalOutcome) -> bool
        ensures { IsTrue result ↔ (self.now ≡ other.now) }
    {
        match (self, other) {
            (
                OriginalOutcome::Approved(mine, paid),
                OriginalOutcome::Approved(theirs, other_paid),
            ) => { mine == theirs && paid.is_same(other_paid) }
            (OriginalOutcome::Declined(mine, by), OriginalOutcome::Declined(theirs, other_by)) => {
                mine == theirs && by == other_by
            }
            (OriginalOutcome::Accepted(paid), OriginalOutcome::Accepted(other_paid)) =>
                paid.is_same(other_paid),
            (
                OriginalOutcome::Acknowledged(mine, by),
                OriginalOutcome::Acknowledged(theirs, other_by),
            ) => { mine == theirs && by == other_by }
            _ => false,
        }
    }
}
