//! Bodies in hexadecimal.

ghost use Rattle.std.specs.Prelude.{◌≡◌, ℕ, ◌≤◌, ◌∷◌, ◌++◌, Ok, Err, length, map, IfOk, IfSome, IfNone, Some, None, IsTrue, IsFalse};
ghost use Rattle.file_listing.specs.Bodies.{body_of, bodies_of, line_bodies, AddsBodies, HasNoFeed, HasTooMany};

use crate::listing_fault::ListingFault;
use hex::FromHexError;
use memchr::memchr;
use std::alloc::{AllocError, Global};

/// The bodies of a text, one a line, in hexadecimal digits of either case. Empty lines and lines that begin with `#` are passed over. A
/// line is refused with its number, from 1, where it is none of these; spaces and carriage returns are no digits. The last line may lack
/// its line feed. More than 65,536 bodies are a fault too; and memory can run out.
pub fn read_bodies(alloc: Global, text: &[u8]) -> Result<Vec<Vec<u8>>, ListingFault>
    ensures ok { IfOk result (λ bodies. bodies_of text.now ≡ Ok (map (λ body. body.items) bodies.items)) }
    ensures few { IfOk result (λ bodies. length bodies.items ≤ 65536) }
    ensures line { (n : ℕ) → result ≡ Err (ListingFault.Line n) → bodies_of text.now ≡ Err n }
    ensures count { result ≡ Err ListingFault.Count → HasTooMany text.now }
{
    let bodies = match all_bodies(alloc, text) {
        Ok(bodies) => bodies,
        Err(fault) => return Err(fault),
    };
    if bodies.len() > 65_536 {
        return Err(ListingFault::Count);
    }
    Ok(bodies)
}

/// The bodies of a text, however many.
fn all_bodies(alloc: Global, text: &[u8]) -> Result<Vec<Vec<u8>>, ListingFault>
    ensures ok { IfOk result (λ bodies. bodies_of text.now ≡ Ok (map (λ body. body.items) bodies.items)) }
    ensures line { (n : ℕ) → result ≡ Err (ListingFault.Line n) → bodies_of text.now ≡ Err n }
    ensures count { ¬ (result ≡ Err ListingFault.Count) }
{
    let mut bodies = Vec::new(alloc);
    let mut rest = text;
    let mut number = 1;
    while let Some((line, more)) = first_line(rest) {
        if !has_body(alloc, line, &mut bodies)? {
            return Err(ListingFault::Line(number));
        }
        number += 1;
        rest = more;
    }
    if !has_body(alloc, rest, &mut bodies)? {
        return Err(ListingFault::Line(number));
    }
    Ok(bodies)
}

/// The first line without its line feed, and what follows; `None` where there is no line feed.
fn first_line(text: &[u8]) -> Option<(&[u8], &[u8])>
    ensures found { IfSome result (λ parts. (text.now ≡ parts.0.now ++ 10 ∷ parts.1.now) × HasNoFeed parts.0.now) }
    ensures none { IfNone result (HasNoFeed text.now) }
{
    let end = memchr(b'\n', text)?;
    Some((&text[..end], &text[end + 1..]))
}

/// Appends the body of a line, or nothing where the line is passed over; false where it is wrong.
fn has_body(alloc: Global, line: &[u8], bodies: &mut Vec<Vec<u8>>) -> Result<bool, AllocError>
    ensures added { IfOk result (λ right. IsTrue right → AddsBodies line.now (map (λ body. body.items) bodies.old.items) (map (λ body. body.items) bodies.new.items)) }
    ensures wrong { IfOk result (λ right. IsFalse right → line_bodies line.now ≡ None) }
{
    if line.is_empty() || line[0] == b'#' {
        return Ok(true);
    }
    let Some(body) = body_of_digits(alloc, line)? else {
        return Ok(false);
    };
    bodies.push(body)?;
    Ok(true)
}

/// The body that 1 to 512 pairs of hexadecimal digits stand for; `None` is any other text. It fails only where memory runs out.
pub fn body_of_digits(alloc: Global, digits: &[u8]) -> Result<Option<Vec<u8>>, AllocError>
    ensures found { IfOk result (λ found. IfSome found (λ body. body_of digits.now ≡ Some body.items)) }
    ensures none { IfOk result (λ found. IfNone found (body_of digits.now ≡ None)) }
{
    match hex::decode(alloc, digits) {
        Ok(body) if matches!(body.len(), 1..=512) => Ok(Some(body)),
        Err(FromHexError::OutOfMemory) => Err(AllocError),
        _ => Ok(None),
    }
}
