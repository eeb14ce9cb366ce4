use crate::row_lines::row;
use issuer_rows::Book;
use std::alloc::Global;
use std::test::Fail;

/// Cards A and B, both active, until 2028-12, with at most 3 approvals and 200.00 a day, and their accounts, with 100.00 and
/// 5.00 available in currency 978.
pub const FIRST_BOOK: &[&str] = &[
    "card A 2812 active 0 3 20000 A -",
    "card B 2812 active 0 3 20000 B -",
    "account A 10000 978",
    "account B 500 978",
];

/// The first book with these rows written over it.
pub fn first_book_with(alloc: Global, lines: &[&str]) -> Result<Book, Fail> {
    with_rows(with_rows(Book::new(alloc), FIRST_BOOK)?, lines)
}

/// The book with these rows written over it, one after another.
pub fn with_rows(book: Book, lines: &[&str]) -> Result<Book, Fail> {
    let mut after = book;
    if are_put(&mut after, lines) {
        Ok(after)
    } else {
        Err(Fail::new("rows, and room"))
    }
}

// Writes these rows over the book, one after another.
pub(crate) fn are_put(book: &mut Book, lines: &[&str]) -> bool {
    for line in lines {
        if !is_put(book, line) {
            return false;
        }
    }
    true
}

/// Writes this row over the book; a line that is no row isn't written.
pub fn is_put(book: &mut Book, line: &str) -> bool {
    match row(line) {
        Some((key, val)) => val.suits(&key) && book.put(key, val).is_ok(),
        None => false,
    }
}

/// Whether the book has this row; a line that is no row is in no book.
pub fn has_row(book: &Book, line: &str) -> bool {
    let Some((key, val)) = row(line) else {
        return false;
    };
    match book.get(&key) {
        Some(found) => found.is_same(&val),
        None => false,
    }
}
