ghost use Rattle.std.specs.Prelude.{◌≡◌, IfOk};
ghost use Rattle.book_text.specs.Digest.{book_digest};

use crate::writing::write_book;
use issuer_rows::Book;
use sha2::{Digest, Sha256};
use std::alloc::{AllocError, Global};

/// The digest by which a log names its opening book: SHA-256 of the book's canonical text, JSON of version 3.
pub fn digest_of_book(alloc: Global, book: &Book) -> Result<[u8; 32], AllocError>
    ensures { IfOk result (λ digest. digest ≡ book_digest book.now) }
{
    let text = write_book(alloc, book)?;
    Ok(Sha256::digest(text.as_slice()))
}
