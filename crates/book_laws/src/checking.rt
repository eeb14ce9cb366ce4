ghost use Rattle.std.specs.Prelude.{◌≡◌, ◌↔◌, ◌+◌, ◌≤◌, ◌^◌, ◌&&◌, All, IsTrue, IsOk, IfErr, IfSome, Some};
ghost use Rattle.std.specs.Option.{SomeIff};
ghost use Rattle.std.specs.FinMap as map;
ghost use Rattle.issuer_words.specs.Words.{account_in, available_in, budget_in, left_in, stays};
ghost use Rattle.book_laws.specs.CheckBook.{has_right_number, has_account, has_payer, has_paying_account, has_second, are_accounts, has_accounts, are_numbers_right, have_paying_accounts, have_accounts, AreBackingsInRange, IsSound, IsRestSound, IsFirstFault, is_among, IsRowInRange, AreRowsInRange};
ghost use Rattle.book_laws.specs.declared.paid_from.PaidFrom.TheVariants.{Anything};

use crate::book_fault::BookFault;
use crate::paid_from::{PaidFrom, is_paid_by_budget};
use iso8583::{AccountId, luhn};
use issuer_rows::{Balance, Book, CardAccounts, Payer, RowKey, RowVal};
use std::thread::{Threads, join};

// So many rows at least are looked through by two threads: to start one takes some 50 microseconds.
const MANY: usize = 1 << 13;

/// What is wrong with a book that comes from outside: of the faults that are there, the one with the lowest number.
/// It takes no memory.
pub fn check_book(book: &Book) -> Result<(), BookFault>
    ensures sound { IsOk result ↔ IsSound book.now }
    ensures fault { IfErr result (IsFirstFault book.now) }
{
    check_rest(book)?;
    if !have_accounts(book) {
        return Err(BookFault::CardWithoutAccount);
    }
    Ok(())
}

/// The same. A large book's cards are asked for their accounts in a thread of its own.
pub fn check_book_by<R: Threads>(rt: &R, book: &Book) -> Result<(), BookFault>
    ensures sound { IsOk result ↔ IsSound book.now }
    ensures fault { IfErr result (IsFirstFault book.now) }
{
    if book.len() < MANY {
        return check_book(book);
    }
    let (are_there, rest) = join(
        rt,
        || -> bool
            ensures { result ≡ have_accounts book.entry.now }
        { have_accounts(book) },
        || -> Result<(), BookFault>
            ensures sound { IsOk result ↔ IsRestSound book.entry.now }
            ensures fault { IfErr result (IsFirstFault book.entry.now) }
        { check_rest(book) },
    );
    rest?;
    if !are_there {
        return Err(BookFault::CardWithoutAccount);
    }
    Ok(())
}

// What is wrong with a book first, but for the accounts of its cards.
fn check_rest(book: &Book) -> Result<(), BookFault>
    ensures sound { IsOk result ↔ IsRestSound book.now }
    ensures fault { IfErr result (IsFirstFault book.now) }
{
    if !are_rows_right(book) {
        if !are_numbers_right(book) {
            return Err(BookFault::CardNumber);
        }
        return Err(BookFault::OriginalWithoutAccount);
    }
    if !are_backings_in_range(book) {
        return Err(BookFault::OutOfRange);
    }
    Ok(())
}

// Whether each card's number passes the Luhn test, and each original that was paid from an account finds the account's row.
fn are_rows_right(book: &Book) -> bool
    ensures { result ≡ (are_numbers_right book.now && have_paying_accounts book.now) }
{
    for (key, val) in book.rows() {
        if !has_right_number(key) || !has_paying_account(book, val) {
            return false;
        }
    }
    true
}

// Whether each card's number passes the Luhn test.
fn are_numbers_right(book: &Book) -> bool
    ensures { result ≡ are_numbers_right book.now }
{
    for (key, _) in book.rows() {
        if !has_right_number(key) {
            return false;
        }
    }
    true
}

// Whether each card finds the rows of its accounts, which are not the same.
fn have_accounts(book: &Book) -> bool
    ensures { result ≡ have_accounts book.now }
{
    for (_, val) in book.rows() {
        if !has_accounts(book, val) {
            return false;
        }
    }
    true
}

/// Whether the number of a card passes the Luhn test.
pub fn has_right_number(key: &RowKey) -> bool
    ensures { result ≡ has_right_number key.now }
{
    match key {
        RowKey::Card(pan) => luhn(pan),
        _ => true,
    }
}

/// Whether the account has a row.
pub fn has_account(book: &Book, id: &AccountId) -> bool
    ensures { result ≡ has_account book.now id.now }
{
    matches!(book.row(&RowKey::Account(*id)), Some(RowVal::Account(_)))
}

/// Whether the account that paid for an original has a row.
pub fn has_paying_account(book: &Book, val: &RowVal) -> bool
    ensures { result ≡ has_paying_account book.now val.now }
{
    let RowVal::Kept(kept) = val else {
        return true;
    };
    let Some(payment) = kept.outcome().payment() else {
        return true;
    };
    match &payment.payer {
        Payer::Account(id) => has_account(book, id),
        Payer::Budget => true,
    }
}

/// Whether the accounts of a card have rows and are not the same.
pub fn has_accounts(book: &Book, val: &RowVal) -> bool
    ensures { result ≡ has_accounts book.now val.now }
{
    match val {
        RowVal::Card(row) => are_accounts(book, &row.accounts),
        _ => true,
    }
}

// Whether the accounts have rows and are not the same.
fn are_accounts(book: &Book, accounts: &CardAccounts) -> bool
    ensures { result ≡ are_accounts book.now accounts.now }
{
    let first = accounts.first();
    if !has_account(book, &first) {
        return false;
    }
    match &accounts.second() {
        Some(second) => has_account(book, second) && *second != first,
        None => true,
    }
}

// Whether no backing is over 10^15. An account of a payer has a row here. All originals are gone through once, and those
// of one account or prefix only where the stays of all would not do.
#[tactic(auto, using(crate::proofs::BackingLaws::backings_by_rows))]
fn are_backings_in_range(book: &Book) -> bool
    requires { IsTrue (have_paying_accounts book.now) }
    ensures { IsTrue result ↔ AreBackingsInRange book.now }
{
    are_rows_in_range(book, &with_stays(book, Balance::ZERO, &PaidFrom::Anything))
}

// Whether each row is in range. `all` is not below what stays paid of all originals.
fn are_rows_in_range(book: &Book, all: &Option<Balance>) -> bool
    requires { IfSome all.now (λ sum. stays (is_among Anything) book.now ≤ sum) }
    ensures { IsTrue result ↔ AreRowsInRange book.now (map.entries book.now) }
{
    for (key, val) in book.rows() {
        if !is_row_in_range(book, all, key, val) {
            return false;
        }
    }
    true
}

// Whether the row is in range. `all` is not below what stays paid of all originals.
fn is_row_in_range(book: &Book, all: &Option<Balance>, key: &RowKey, val: &RowVal) -> bool
    requires { IfSome all.now (λ sum. stays (is_among Anything) book.now ≤ sum) }
    ensures { IsTrue result ↔ IsRowInRange book.now key.now val.now }
{
    match (key, val) {
        (RowKey::Account(id), _) => {
            is_backing_in_range(book, all, available(val), &PaidFrom::Account(*id))
        }
        (RowKey::Budget(prefix), _) => {
            is_backing_in_range(book, all, left(val), &PaidFrom::Budget(*prefix))
        }
        (RowKey::Original(_), RowVal::Kept(kept)) if is_paid_by_budget(kept) => {
            let prefix = kept.card().prefix();
            is_backing_in_range(book, all, Balance::ZERO, &PaidFrom::Budget(prefix))
        }
        _ => true,
    }
}

// Whether a balance and what stays paid of these originals are at most 10^15 together.
#[tactic(auto, using(crate::proofs::BackingLaws::stays_le))]
fn is_backing_in_range(
    book: &Book,
    all: &Option<Balance>,
    balance: Balance,
    paid: &PaidFrom,
) -> bool
    requires { IfSome all.now (λ sum. stays (is_among Anything) book.now ≤ sum) }
    ensures { IsTrue result ↔ (balance + stays (is_among paid.now) book.now ≤ 10 ^ 15) }
{
    if let Some(all) = all
        && Balance::new(balance.minor() + all.minor()).is_some()
    {
        return true;
    }
    with_stays(book, balance, paid).is_some()
}

// The balance and what stays paid of these originals, if they are at most 10^15 together.
fn with_stays(book: &Book, balance: Balance, paid: &PaidFrom) -> Option<Balance>
    ensures { SomeIff result (balance + stays (is_among paid.now) book.now ≤ 10 ^ 15) (balance + stays (is_among paid.now) book.now) }
{
    let mut sum = balance.minor();
    for (key, val) in book.rows() {
        sum = Balance::new(sum + paid.stay(key, val).minor())?.minor();
    }
    Balance::new(sum)
}

// What is available in an account's row: nothing in another one.
fn available(val: &RowVal) -> Balance
    ensures { result ≡ available_in (account_in (Some val.now)) }
{
    match val {
        RowVal::Account(row) => row.available,
        _ => Balance::ZERO,
    }
}

// What is left in a budget's row: nothing in another one.
fn left(val: &RowVal) -> Balance
    ensures { result ≡ left_in (budget_in (Some val.now)) }
{
    match val {
        RowVal::Budget(row) => row.left,
        _ => Balance::ZERO,
    }
}
