ghost use Rattle.std.specs.Prelude.{◌≡◌, ◌↔◌, IsTrue};
ghost use Rattle.issuer_words.specs.Words.{account_paid, budget_paid, is_account, is_budget, kept_in, payment_of_outcome, stay_if};
ghost use Rattle.book_laws.specs.CheckBook.{is_among};

use iso8583::{AccountId, Amount, PanPrefix};
use issuer_rows::{Kept, Payer, RowKey, RowVal};

// Originals, by what paid for them.
#[derive(Clone, Copy, PartialEq, Eq)]
pub(crate) enum PaidFrom {
    // All of them.
    Anything,
    // Those that this account paid.
    Account(AccountId),
    // Those of this prefix that the budget paid.
    Budget(PanPrefix),
}

impl PaidFrom {
    // What stays paid of a row's original, if it keeps one and that is one of these.
    pub(crate) fn stay(&self, key: &RowKey, val: &RowVal) -> Amount
        ensures { result ≡ stay_if (is_among self.now) (kept_in key.now val.now) }
    {
        match (key, val) {
            (RowKey::Original(_), RowVal::Kept(kept)) if self.has(kept) => {
                kept.outcome().stay(kept.amount())
            }
            _ => Amount::ZERO,
        }
    }

    // Whether the original is one of these.
    fn has(&self, kept: &Kept) -> bool
        ensures { result ≡ is_among self.now kept.now }
    {
        match self {
            PaidFrom::Anything => true,
            PaidFrom::Account(id) => is_paid_by_account(kept, id),
            PaidFrom::Budget(prefix) => is_paid_by_budget(kept) && kept.card().prefix() == *prefix,
        }
    }
}

// Whether this account paid.
fn is_paid_by_account(kept: &Kept, id: &AccountId) -> bool
    ensures { result ≡ account_paid id.now (payment_of_outcome kept.now.outcome) }
{
    let Some(payment) = kept.outcome().payment() else {
        return false;
    };
    match &payment.payer {
        Payer::Account(paid) => paid == id,
        Payer::Budget => false,
    }
}

// Whether the budget paid.
pub(crate) fn is_paid_by_budget(kept: &Kept) -> bool
    ensures { result ≡ budget_paid (payment_of_outcome kept.now.outcome) }
{
    let Some(payment) = kept.outcome().payment() else {
        return false;
    };
    matches!(&payment.payer, Payer::Budget)
}
