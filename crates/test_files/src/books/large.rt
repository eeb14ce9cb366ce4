//! Books whose text several threads read.

use book_json::{read_book, write_book};
use issuer_rows::Book;
use std::alloc::Global;
use std::sync::Wait;
use std::test::Fail;
use std::thread::Threads;
use test_fixtures::{FIRST_BOOK, is_put, with_rows};

// A book of 3,000 accounts, whose names end so, and as many originals.
fn large_book(alloc: Global, end: &str) -> Result<Book, Fail> {
    let mut book = with_rows(Book::new(alloc), FIRST_BOOK)?;
    for number in 100_000..103_000 {
        let account = format!(in alloc; "account {number}{end} 10000 978")?;
        let original = format!(in alloc; "approved {number} A 6000 000001 A")?;
        if !is_put(&mut book, account.as_str()) || !is_put(&mut book, original.as_str()) {
            return Err(Fail::new("a row, and room"));
        }
    }
    Ok(book)
}

// Whether the book is written and read again as it is.
fn is_read_again<R: Threads + Wait + Sync>(rt: &R, alloc: Global, book: &Book) -> bool {
    let Ok(text) = write_book(alloc, book) else {
        return false;
    };
    match read_book(rt, alloc, &text) {
        Ok(read) => read.is_same(book),
        Err(_) => false,
    }
}

#[test]
fn a_large_book_is_read_again(rt: HostRuntime) -> Result<(), Fail> {
    let book = large_book(rt.alloc(), "")?;
    assert!(rt; is_read_again(&rt, rt.alloc(), &book));
    Ok(())
}

// Names with what stands between entries, and behind a list.
#[test]
fn names_are_not_cut(rt: HostRuntime) -> Result<(), Fail> {
    let between = large_book(rt.alloc(), r#""},{"available":"#)?;
    assert!(rt; is_read_again(&rt, rt.alloc(), &between));
    let behind = large_book(rt.alloc(), r#"},{"],"ahead":["#)?;
    assert!(rt; is_read_again(&rt, rt.alloc(), &behind));
    Ok(())
}
