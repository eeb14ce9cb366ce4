ghost use Rattle.std.specs.Prelude.{◌≡◌, option_map};
ghost use Rattle.std.specs.FinMap as map;
ghost use Rattle.issuer_rows.specs.declared.funds.Funds.TheVariants as funds;
ghost use Rattle.issuer_laws.specs.Rules.{day_of_row, reversal_facts_of, row_of_payer, row_that_paid};

use crate::rows::{account_of, budget_of, original_of, spent_on};
use iso8583::{AccountId, Pan, PanPrefix, Reversal};
use issuer_rows::{AccountRow, Book, BudgetRow, Funds, OriginalRow, Payer, VelocityRow};
use std::marker::Model;

// What a reversal is decided by: what the book has of its original, of what paid, and of the original's day.
#[derive(Drop)]
pub(crate) struct ReversalFacts {
    // What is known of the original.
    pub(crate) seen: Option<OriginalRow>,
    // What paid for it.
    pub(crate) paid: Option<Funds>,
    // What was spent on its day.
    pub(crate) day: Option<VelocityRow>,
}

impl Model for ReversalFacts {
    ghost use Rattle.issuer_laws.specs.Rules.{ReversalFacts as RowsOfReversal};

    ghost Value = { RowsOfReversal };

    ghost view = { λ f. record { seen = f.seen; paid = f.paid; day = f.day } };
}

impl ReversalFacts {
    // What this book has of a reversal's original.
    pub(crate) fn of(book: &Book, reversal: &Reversal) -> ReversalFacts
        ensures { result ≡ reversal_facts_of book.now reversal.now }
    {
        let seen = original_of(book, reversal.original.identity);
        ReversalFacts {
            seen,
            paid: row_that_paid(book, &seen),
            day: day_of_row(book, reversal, &seen),
        }
    }
}

// What was spent on the day of an original, if it is kept and has a row.
fn day_of_row(book: &Book, reversal: &Reversal, seen: &Option<OriginalRow>) -> Option<VelocityRow>
    ensures { result ≡ day_of_row (map.get book.now) reversal.now seen.now }
{
    match seen {
        Some(OriginalRow::Kept(kept)) => {
            spent_on(book, kept.card(), reversal.original.identity.stamp.day())
        }
        _ => None,
    }
}

// The row that paid for an original, if it was paid.
fn row_that_paid(book: &Book, seen: &Option<OriginalRow>) -> Option<Funds>
    ensures { result ≡ row_that_paid (map.get book.now) seen.now }
{
    match seen {
        Some(OriginalRow::Kept(kept)) => match kept.outcome().payment() {
            Some(payment) => row_of_payer(book, kept.card(), &payment.payer),
            None => None,
        },
        _ => None,
    }
}

// The row of who paid for an original of this card.
fn row_of_payer(book: &Book, card: Pan, payer: &Payer) -> Option<Funds>
    ensures { result ≡ row_of_payer (map.get book.now) card payer.now }
{
    match payer {
        Payer::Account(id) => account_funds(id, account_of(book, *id)),
        Payer::Budget => budget_funds(card.prefix(), budget_of(book, card.prefix())),
    }
}

// An account as what paid, if it has a row.
fn account_funds(id: &AccountId, account: Option<AccountRow>) -> Option<Funds>
    ensures { result ≡ option_map (funds.Account id.now) account }
{
    match account {
        Some(account) => Some(Funds::Account(*id, account)),
        None => None,
    }
}

// A budget as what paid, if it has a row.
fn budget_funds(prefix: PanPrefix, budget: Option<BudgetRow>) -> Option<Funds>
    ensures { result ≡ option_map (funds.Budget prefix) budget }
{
    match budget {
        Some(budget) => Some(Funds::Budget(prefix, budget)),
        None => None,
    }
}
