ghost use Rattle.std.specs.Prelude.{◌≡◌, ◌≤◌};
ghost use Rattle.issuer_rows.specs.Facts as facts;
ghost use Rattle.issuer_rows.specs.Kept.{payment_of_outcome, stay_of_payment};

use iso8583::{Identity, OriginalKind, Transaction};
use issuer_rows::{Kept, Mark, OriginalOutcome, RowVal};

/// Whether the message's card and kind are those that the mark names.
pub fn is_marked(mark: &Mark, transaction: &Transaction, kind: OriginalKind) -> bool
    ensures { result ≡ facts.is_marked mark.now transaction.now kind }
{
    mark.card == transaction.pan && is_same_kind(mark.kind, kind)
}

/// Whether what is kept is of this kind, and has the message's card, amount and processing code.
pub fn is_of_same(kept: &Kept, transaction: &Transaction, kind: OriginalKind) -> bool
    ensures { result ≡ facts.is_of_same kept.now transaction.now kind }
{
    is_same_kind(kept.outcome().kind(), kind)
        && kept.card() == transaction.pan
        && kept.amount() == transaction.amount
        && kept.processing() == transaction.processing
}

/// Whether the kinds of two originals are the same.
pub fn is_same_kind(kind: OriginalKind, other: OriginalKind) -> bool
    ensures { result ≡ facts.is_same_kind kind other }
{
    match (kind, other) {
        (OriginalKind::Request, OriginalKind::Request)
        | (OriginalKind::Advice, OriginalKind::Advice) => true,
        (OriginalKind::Request, OriginalKind::Advice)
        | (OriginalKind::Advice, OriginalKind::Request) => false,
    }
}

/// Whether two identities are the same.
pub fn is_same_identity(identity: &Identity, other: &Identity) -> bool
    ensures { result ≡ facts.is_same_identity identity.now other.now }
{
    identity.acquirer == other.acquirer
        && identity.stan == other.stan
        && identity.stamp == other.stamp
}

// What is kept of a message with this outcome.
pub(crate) fn kept_of(transaction: &Transaction, outcome: OriginalOutcome) -> RowVal
    requires { stay_of_payment transaction.now.amount (payment_of_outcome outcome) ≤ transaction.now.amount }
    ensures { result ≡ RowVal.Kept (record { card = transaction.now.pan; amount = transaction.now.amount; processing = transaction.now.processing; outcome = outcome }) }
{
    match Kept::new(
        transaction.pan,
        transaction.amount,
        transaction.processing,
        outcome,
    ) {
        Some(kept) => RowVal::Kept(kept),
        None => unreachable!(),
    }
}
