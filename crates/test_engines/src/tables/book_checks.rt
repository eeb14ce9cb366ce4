//! What is wrong with a book.

use crate::tables::batches::decided;
use book_laws::{BookFault, check_book};
use issuer_rows::Book;
use std::alloc::Global;
use std::ops::Range;
use std::process::Abort;
use std::test::Fail;
use test_fixtures::{
    advice_rules, first_book_with, frames, is_put, laws, opening, request_rules, reversal_rules,
    unchecked_rules, worked,
};

// The number of what is wrong, a name, and the rows that are written over those of the first book: each fault, in each way that it
// comes, and the lower one of each two.
const CHECKS: &str = "0: nothing

1: card number
card 4111110000000004 2812 active 0 3 20000 A -

2: payer without a row
accepted 000001 A 100 901 NONE

2: a reversed original's payer
accepted 000001 A 100 901 NONE 000002 0

3: account
account BIG 1000000000000000 978
accepted 000001 A 1 901 BIG

0: account at the bound
account BIG 999999999999999 978
accepted 000001 A 1 901 BIG

0: account and nothing that stays
account BIG 1000000000000000 978
accepted 000001 A 1 901 BIG 000002 0

3: budget
budget 411111 direct 0 1000000000000000
accepted 000001 A 1 901 budget

0: budget of another prefix
budget 550000 direct 0 1000000000000000
accepted 000001 A 1 901 budget

4: first account
card A 2812 active 0 3 20000 NONE -

4: second account
card A 2812 active 0 3 20000 A NONE

4: one account twice
card A 2812 active 0 3 20000 A A

0: two accounts
card A 2812 active 0 3 20000 A B

1: 1 and 2
card 4111110000000004 2812 active 0 3 20000 A -
accepted 000001 A 100 901 NONE

1: 1 and 3
card 4111110000000021 2812 active 0 3 20000 A -
card 5500000000000005 2812 active 0 3 20000 A -
account BIG 1000000000000000 978
accepted 000001 A 1 901 BIG

1: 1 and 4
card A 2812 active 0 3 20000 NONE -
card 5500000000000005 2812 active 0 3 20000 A -

2: 2 and 3
account BIG 1000000000000000 978
accepted 000001 A 1 901 BIG
accepted 000002 A 100 901 NONE

2: 2 and 4
card A 2812 active 0 3 20000 NONE -
accepted 000001 A 100 901 NONE

3: 3 and 4
card A 2812 active 0 3 20000 NONE -
account BIG 1000000000000000 978
accepted 000001 A 1 901 BIG
";

// The number of what is wrong with the book, 0 where nothing is.
fn number_of(book: &Book) -> u8 {
    match check_book(book) {
        Ok(()) => 0,
        Err(fault) => fault.number(),
    }
}

// Whether so much is wrong with these rows over those of the first book.
fn is_found(book: &mut Book, number: &str, rows: &str) -> bool {
    for line in rows.lines() {
        if !is_put(book, line) {
            return false;
        }
    }
    number.parse().ok() == Some(number_of(book))
}

#[test]
fn names_the_first_fault(rt: HostRuntime) -> Result<(), Fail> {
    for case in CHECKS.split("\n\n") {
        let mut book = first_book_with(rt.alloc(), &[])?;
        let (title, rows) = case.split_once('\n').unwrap_or((case, ""));
        let (number, name) = title.split_once(": ").unwrap_or((title, ""));
        assert!(rt; is_found(&mut book, number, rows), "{name}");
    }
    Ok(())
}

// Writes an advice of card A over the book, of the greatest amount, with this trace number and paid by this.
fn is_advised(alloc: Global, book: &mut Book, trace: u32, paid: &str) -> bool {
    match format!(in alloc; "accepted {trace:06} A 999999999999 901 {paid}") {
        Ok(line) => is_put(book, line.as_str()),
        Err(_) => false,
    }
}

// Writes so many of them over the book, from this trace number on, and says what is then wrong.
fn number_with(alloc: Global, book: &mut Book, traces: Range<u32>, paid: &str) -> Option<u8> {
    for trace in traces {
        if !is_advised(alloc, book, trace, paid) {
            return None;
        }
    }
    Some(number_of(book))
}

// What the budget pays counts where it has no row too; what different payers pay is in range apart, even where it isn't
// together.
#[test]
fn counts_what_stays_paid_by_its_payer(rt: HostRuntime) -> Result<(), Fail> {
    let alloc = rt.alloc();
    let mut book = first_book_with(alloc, &[])?;
    let first = number_with(alloc, &mut book, 0..600, "budget");
    let apart = number_with(alloc, &mut book, 600..1200, "A");
    let together = number_with(alloc, &mut book, 600..1000, "budget");
    let over = number_with(alloc, &mut book, 1000..1001, "budget");
    assert!(rt; (first, apart, together, over) == (Some(0), Some(0), Some(0), Some(3)));
    Ok(())
}

// Whether the book of this batch is taken.
fn is_taken(alloc: Global, batch: &str) -> Option<bool> {
    let book = opening(alloc, batch)?;
    Some(number_of(&book) == 0)
}

// The books of these batches are taken, or refused.
fn assert_taken(rt: &impl Abort, alloc: Global, batches: &str, taken: bool) {
    for batch in batches.split("\n\n") {
        assert!(rt; is_taken(alloc, batch) == Some(taken), "{batch}");
    }
}

#[test]
fn takes_the_books_of_the_batches(rt: HostRuntime) {
    assert_taken(&rt, rt.alloc(), worked(), true);
    assert_taken(&rt, rt.alloc(), request_rules(), true);
    assert_taken(&rt, rt.alloc(), advice_rules(), true);
    assert_taken(&rt, rt.alloc(), reversal_rules(), true);
    assert_taken(&rt, rt.alloc(), laws(), true);
    assert_taken(&rt, rt.alloc(), unchecked_rules(), false);
}

// What is wrong with the book behind this batch.
fn number_behind(alloc: Global, batch: &str) -> Option<u8> {
    let frames = frames(alloc, batch).ok()?;
    let after = decided(alloc, batch, &frames)?;
    Some(number_of(&after.book))
}

#[test]
fn a_book_stays_a_book(rt: HostRuntime) {
    for batch in laws().split("\n\n") {
        assert!(rt; number_behind(rt.alloc(), batch) == Some(0), "{batch}");
    }
}

// Faults, and what they print.
const PRINTED: &[(BookFault, &str)] = &[
    (BookFault::CardNumber, "a card's number fails the Luhn test"),
    (
        BookFault::OriginalWithoutAccount,
        "an original was paid from an account that isn't there",
    ),
    (
        BookFault::OutOfRange,
        "an account or a prefix is backed by over 10^15",
    ),
    (
        BookFault::CardWithoutAccount,
        "an account of a card isn't there, or both are the same",
    ),
];

fn prints(alloc: Global, fault: BookFault, text: &str) -> bool {
    match fault.to_string(alloc) {
        Ok(printed) => printed.as_str() == text,
        Err(_) => false,
    }
}

#[test]
fn prints_what_is_wrong(rt: HostRuntime) {
    for (fault, text) in PRINTED {
        assert!(rt; prints(rt.alloc(), *fault, text), "{text}");
    }
}
