ghost use Rattle.std.specs.Prelude.{◌≡◌, ◌≢◌, Ok, Err, IfOk, IfErr, map};
ghost use Rattle.file_laws.specs.Reading.{batch_magic, bodies_at, bodies_of};

use crate::head::head_at;
use crate::one_body::body_at;
use file_laws::BatchFault;
use std::alloc::{AllocError, Global};

/// The bodies of a batch file, in order, each as its bytes, whether it is a message or not. It fails with the first fault of the file in
/// reading order, as `read_batch`, or where memory runs out.
#[tactic(auto, unfolding(file_laws::specs::Reading::bodies_of))]
pub fn bodies_of_batch(alloc: Global, batch: &[u8]) -> Result<Vec<Vec<u8>>, BatchFault>
    ensures bodies { IfOk result (λ bodies. bodies_of batch_magic batch.now ≡ Ok (map (λ body. body.items) bodies.items)) }
    ensures fault { IfErr result (λ fault. fault ≢ BatchFault.OutOfMemory → bodies_of batch_magic batch.now ≡ Err fault) }
{
    let (count, bytes) = match head_at(batch) {
        Ok(parts) => parts,
        Err(fault) => return Err(fault),
    };
    let (bodies, behind) = match cut_bodies(alloc, count, bytes) {
        Ok(parts) => parts,
        Err(fault) => return Err(fault),
    };
    if !behind.is_empty() {
        return Err(BatchFault::Trailing);
    }
    Ok(bodies)
}

// So many bodies, and the bytes behind them.
fn cut_bodies(alloc: Global, count: u32, bytes: &[u8]) -> Result<(Vec<Vec<u8>>, &[u8]), BatchFault>
    ensures bodies { IfOk result (λ parts. bodies_at count bytes.now ≡ Ok (map (λ body. body.items) parts.0.items, parts.1.now)) }
    ensures fault { IfErr result (λ fault. fault ≢ BatchFault.OutOfMemory → bodies_at count bytes.now ≡ Err fault) }
{
    let mut bodies = Vec::new(alloc);
    let mut rest = bytes;
    let mut left = count;
    while left > 0 {
        let (body, behind) = match body_at(rest) {
            Ok(parts) => parts,
            Err(fault) => return Err(fault),
        };
        let copy = copy_of(alloc, body)?;
        bodies.push(copy)?;
        rest = behind;
        left -= 1;
    }
    Ok((bodies, rest))
}

// A copy of a body.
fn copy_of(alloc: Global, body: &[u8]) -> Result<Vec<u8>, AllocError>
    ensures { IfOk result (λ copy. copy.items ≡ body.now) }
{
    let mut copy = Vec::new(alloc);
    copy.extend_from_slice(body)?;
    Ok(copy)
}
