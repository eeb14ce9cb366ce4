ghost use Rattle.std.specs.Prelude.{◌≡◌, ◌≢◌, ◌++◌, Err, IfOk, IfErr, OnOk};
ghost use Rattle.file_laws.specs.Reading.{batch_magic, bodies_at, bodies_of};
ghost use Rattle.file_listing.specs.BodyLines.{IsTextOf, HasLinesOf, body_line};

use crate::head::head_at;
use crate::one_body::body_at;
use file_laws::BatchFault;
use std::alloc::{AllocError, Global};

/// The bodies of a batch file as a text, a line each, in hexadecimal digits of lower case. It fails with the first fault of the file in
/// reading order, as `read_batch`, or where memory runs out.
#[tactic(auto, unfolding(file_laws::specs::Reading::bodies_of))]
pub fn lines_of_batch(alloc: Global, batch: &[u8]) -> Result<Vec<u8>, BatchFault>
    ensures lines { IfOk result (λ text. IsTextOf batch.now text.items) }
    ensures fault { IfErr result (λ fault. fault ≢ BatchFault.OutOfMemory → bodies_of batch_magic batch.now ≡ Err fault) }
{
    let (count, bodies) = match head_at(batch) {
        Ok(parts) => parts,
        Err(fault) => return Err(fault),
    };
    let (text, behind) = match lines_of_bodies(alloc, count, bodies) {
        Ok(parts) => parts,
        Err(fault) => return Err(fault),
    };
    if !behind.is_empty() {
        return Err(BatchFault::Trailing);
    }
    Ok(text)
}

/// The lines of so many bodies, and the bytes behind them.
pub(crate) fn lines_of_bodies(
    alloc: Global,
    count: u32,
    bytes: &[u8],
) -> Result<(Vec<u8>, &[u8]), BatchFault>
    ensures lines { IfOk result (λ parts. HasLinesOf count bytes.now parts.0.items parts.1.now) }
    ensures fault { IfErr result (λ fault. fault ≢ BatchFault.OutOfMemory → bodies_at count bytes.now ≡ Err fault) }
{
    let mut text = Vec::new(alloc);
    let mut rest = bytes;
    let mut left = count;
    while left > 0 {
        let (body, behind) = match body_at(rest) {
            Ok(parts) => parts,
            Err(fault) => return Err(fault),
        };
        add_line(alloc, &mut text, body)?;
        rest = behind;
        left -= 1;
    }
    Ok((text, rest))
}

// Appends the line of a body.
fn add_line(alloc: Global, text: &mut Vec<u8>, body: &[u8]) -> Result<(), AllocError>
    ensures { OnOk result (text.new.items ≡ text.old.items ++ body_line body.now) }
{
    let digits = hex::encode(alloc, body)?;
    text.extend_from_slice(digits.as_bytes())?;
    text.push(b'\n')?;
    Ok(())
}

/// The line of a body, in hexadecimal digits of lower case, with its line feed.
pub fn line_of_body(alloc: Global, body: &[u8]) -> Result<Vec<u8>, AllocError>
    ensures { IfOk result (λ line. line.items ≡ body_line body.now) }
{
    let mut line = Vec::new(alloc);
    add_line(alloc, &mut line, body)?;
    Ok(line)
}
