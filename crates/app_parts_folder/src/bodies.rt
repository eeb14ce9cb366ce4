ghost use Rattle.std.specs.Prelude.{◌≡◌, ◌≤◌, IfOk, length, map, zip};
ghost use Rattle.file_batch.specs.Bodies.{bytes_of};
ghost use Rattle.file_batch.specs.Words.{AreReplyBodies, batch_text, replies_text};
ghost use Rattle.issuer_laws.specs.Parts.{of_part};

use file_batch::{write_batch, write_replies};
use file_devices::IntoWrite;
use issuer_rows::ReplyBody;
use std::alloc::{AllocError, Global};

/// The bodies of a part, in their order.
pub(crate) fn bodies_of_part(
    alloc: Global,
    parts: &[u32],
    bodies: &[Vec<u8>],
    part: u32,
) -> Result<Vec<Vec<u8>>, AllocError>
    requires { length parts.now ≡ length bodies.now }
    ensures { IfOk result (λ own. bytes_of own.items ≡ of_part part (zip parts.now (bytes_of bodies.now))) }
{
    let mut own = Vec::new(alloc);
    for index in 0..bodies.len() {
        if parts[index] == part {
            let body = copy_of(alloc, &bodies[index])?;
            own.push(body)?;
        }
    }
    Ok(own)
}

// A copy of a body.
fn copy_of(alloc: Global, body: &[u8]) -> Result<Vec<u8>, AllocError>
    ensures { IfOk result (λ copy. copy.items ≡ body.now) }
{
    let mut copy = Vec::new(alloc);
    copy.extend_from_slice(body)?;
    Ok(copy)
}

/// The text of a batch file of these bodies. Of bodies that were read from one it fails only where memory runs out.
pub(crate) fn batch_text(alloc: Global, bodies: &[Vec<u8>]) -> Result<Vec<u8>, AllocError>
    ensures { IfOk result (λ text. text.items ≡ batch_text (bytes_of bodies.now)) }
{
    let mut sink = IntoWrite::new(Vec::new(alloc));
    match write_batch(alloc, bodies, &mut sink) {
        Ok(()) => Ok(sink.into_writer()),
        Err(_) => Err(AllocError),
    }
}

/// The text of a reply file of these replies. Of replies to a batch it fails only where memory runs out.
pub fn replies_text(alloc: Global, replies: &[ReplyBody]) -> Result<Vec<u8>, AllocError>
    ensures text { IfOk result (λ text. text.items ≡ replies_text replies.now) }
    ensures bodies { IfOk result (λ text. AreReplyBodies replies.now) }
{
    let mut sink = IntoWrite::new(Vec::new(alloc));
    match write_replies(alloc, replies, &mut sink) {
        Ok(()) => Ok(sink.into_writer()),
        Err(_) => Err(AllocError),
    }
}
