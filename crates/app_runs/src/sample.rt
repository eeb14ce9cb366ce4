ghost use Rattle.std.specs.Prelude.{◌≡◌, IfOk, ◌≤◌, ◌^◌};
ghost use Rattle.app_runs.specs.SampleBook.{sample_rows, with_card, card_row, account_row, card_key, account_key};
ghost use Rattle.iso8583.specs.Padded.{HasDigits, HasPrintable};

use iso8583::{AccountId, Currency, Pan};
use issuer_rows::{
    AccountRow, Balance, Book, CardAccounts, CardRow, CardStatus, Count, Expiry, RowKey, RowVal,
};
use std::alloc::{AllocError, Global};

/// A small book to try messages on: cards 4111110000000005 with 100.00 and 4111110000000013 with 5.00 available, both active, in currency
/// 978, until 2028-12, with at most 3 approvals and 200.00 a day. It fails only where memory runs out.
pub fn sample_book(alloc: Global) -> Result<Book, AllocError>
    ensures { IfOk result (λ book. book ≡ sample_rows) }
{
    let first = with_card(Book::new(alloc), b"4111110000000005", 10_000)?;
    with_card(first, b"4111110000000013", 500)
}

// The book with a card and its account written over it.
fn with_card(book: Book, number: &[u8], available: u64) -> Result<Book, AllocError>
    requires number { HasDigits 12 19 number.now }
    requires account { HasPrintable 1 28 number.now }
    requires bound { available ≤ 10 ^ 15 }
    ensures { IfOk result (λ after. after ≡ with_card book number.now available) }
{
    let (Some(pan), Some(id)) = (Pan::new(number), AccountId::new(number)) else {
        unreachable!()
    };
    let first = id;
    let mut after = book;
    after.put(RowKey::Card(pan), card_row(first))?;
    after.put(RowKey::Account(id), account_row(available))?;
    Ok(after)
}

fn card_row(account: AccountId) -> RowVal
    ensures { result ≡ card_row account.0 }
{
    let (Some(expiry), Some(approvals)) = (Expiry::new(b"2812"), Count::new(0)) else {
        unreachable!()
    };
    let (Some(day_count), Some(day_amount)) = (Count::new(3), Balance::new(20_000)) else {
        unreachable!()
    };
    RowVal::Card(CardRow {
        expiry,
        status: CardStatus::Active,
        approvals,
        day_count,
        day_amount,
        accounts: CardAccounts::new(account, None),
    })
}

fn account_row(available: u64) -> RowVal
    requires { available ≤ 10 ^ 15 }
    ensures { result ≡ account_row available }
{
    let (Some(available), Some(currency)) = (Balance::new(available), Currency::new(b"978")) else {
        unreachable!()
    };
    RowVal::Account(AccountRow {
        available,
        currency,
    })
}
