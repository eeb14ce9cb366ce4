ghost use Rattle.std.specs.Prelude.{◌≡◌, ◌↔◌, ◌<◌, ◌++◌, ℕ, List, length, take, IfOk, IfErr, IsTrue};
ghost use Rattle.file_laws.specs.LogFault.{is_of_bytes};
ghost use Rattle.file_laws.specs.LogReading.{IsUnbegun};
ghost use Rattle.file_laws.specs.Texts.{header_text};

use crate::growing_file::GrowingFile;
use crate::input::Input;
use crate::log_input::LogInput;
use crate::part_reading::are_zeros;
use file_laws::LogFault;
use std::alloc::{AllocError, Global};

/// The header of the log of a book whose text has this digest.
pub(crate) fn make_header(alloc: Global, book: &[u8; 32]) -> Result<Vec<u8>, AllocError>
    ensures { IfOk result (λ header. header.items ≡ header_text book.now) }
{
    let mut header = Vec::new(alloc);
    header.extend_from_slice(b"I83L\x00\x01")?;
    header.extend_from_slice(book)?;
    Ok(header)
}

/// Whether no log was begun in the file yet: it has less than the header of this book's, as a crash leaves it, or zeros in its place.
pub(crate) fn is_unbegun<G: GrowingFile>(
    alloc: Global,
    file: &G,
    book: &[u8; 32],
) -> Result<bool, LogFault>
    ensures unbegun { G.is_known file.now → IfOk result (λ unbegun. IsTrue unbegun ↔ IsUnbegun book.now (G.synced file.now ++ G.unsynced file.now)) }
    ensures may { IfErr result (λ e. e ≡ LogFault.Failed → G.may_fail file.now) }
    ensures fault { IfErr result (λ e. ¬ IsTrue (is_of_bytes e)) }
{
    let header = make_header(alloc, book)?;
    let mut input = Input::new(alloc, LogInput::new(file))?;
    if input.fill(39)? {
        return Ok(false);
    }
    Ok(is_less(input.held(), &header))
}

// Whether the bytes are less than this header.
fn is_less(bytes: &[u8], header: &[u8]) -> bool
    ensures { (book : List ℕ) → header.now ≡ header_text book → (IsTrue result ↔ IsUnbegun book bytes.now) }
{
    if begins_header(bytes, header) {
        return true;
    }
    if bytes.len() > 38 {
        return false;
    }
    are_zeros(bytes)
}

// Whether the bytes are a proper beginning of the header.
fn begins_header(bytes: &[u8], header: &[u8]) -> bool
    ensures { IsTrue result ↔ ((length bytes.now < length header.now) × (bytes.now ≡ take (length bytes.now) header.now)) }
{
    bytes.len() < header.len() && bytes == &header[..bytes.len()]
}
