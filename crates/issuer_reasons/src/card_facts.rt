ghost use Rattle.std.specs.Prelude.{◌≡◌, option_and_then};
ghost use Rattle.std.specs.FinMap as map;
ghost use Rattle.issuer_words.specs.Words.{AccountId, account_in, spent_in};
ghost use Rattle.issuer_laws.specs.Rules.{facts_of, named_by};

use crate::rows::{account_of, budget_of, card_of, original_of, spent_on};
use iso8583::{AccountId, Transaction};
use issuer_rows::{
    AccountRow, Balance, Book, BudgetRow, CardRow, Count, OriginalRow, RowKey, VelocityRow,
};
use std::marker::Model;

// What a request or an advice is decided by: what the book has of it, of its card and of what may pay.
#[derive(Drop)]
pub(crate) struct CardFacts {
    // What is known of its identity.
    pub(crate) seen: Option<OriginalRow>,
    // Its card.
    pub(crate) card: Option<CardRow>,
    // The account that is asked to pay, if it is the card's.
    pub(crate) named: Option<AccountId>,
    // That account's row.
    pub(crate) account: Option<AccountRow>,
    // What was spent with the card on its day.
    pub(crate) day: VelocityRow,
    // The budget of the card's prefix.
    pub(crate) budget: Option<BudgetRow>,
}

impl Model for CardFacts {
    ghost use Rattle.issuer_laws.specs.Rules.{Facts};

    ghost Value = { Facts };

    ghost view = { λ f. record { seen = f.seen; card = f.card; named = f.named; account = f.account; day = f.day; budget = f.budget } };
}

impl CardFacts {
    // What this book has of a message that names this account, or none.
    pub(crate) fn of(
        book: &Book,
        transaction: &Transaction,
        account: &Option<AccountId>,
    ) -> CardFacts
        ensures { result ≡ facts_of book.now transaction.now account.now }
    {
        let pan = transaction.pan;
        let card = card_of(book, pan);
        let named = named_by(account, &card);
        CardFacts {
            seen: original_of(book, transaction.identity()),
            card,
            named,
            account: named_account(book, &named),
            day: spent_or_nothing(spent_on(book, pan, transaction.stamp.day())),
            budget: budget_of(book, pan.prefix()),
        }
    }
}

// The account that is asked to pay, if it is the card's.
fn named_by(account: &Option<AccountId>, card: &Option<CardRow>) -> Option<AccountId>
    ensures { result ≡ named_by account.now card.now }
{
    match card {
        Some(card) => card.accounts.account_of(account).copied(),
        None => None,
    }
}

// The row of the account of this name, if one is named and has a row.
fn named_account(book: &Book, named: &Option<AccountId>) -> Option<AccountRow>
    ensures { result ≡ option_and_then (λ (id : AccountId). account_in (map.get book.now (RowKey.Account id))) named.now }
{
    match named {
        Some(id) => account_of(book, *id),
        None => None,
    }
}

// What was spent on a day: nothing where there is no row.
fn spent_or_nothing(day: Option<VelocityRow>) -> VelocityRow
    ensures { result ≡ spent_in day }
{
    match day {
        Some(day) => day,
        None => VelocityRow {
            count: Count::ZERO,
            sum: Balance::ZERO,
        },
    }
}
