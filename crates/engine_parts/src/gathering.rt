ghost use Rattle.std.specs.Prelude.{◌≡◌, ◌≤◌, length, IfOk};
ghost use Rattle.engine_parts.specs.Decided.{bodies_of};

use issuer_rows::Frame;
use std::alloc::{AllocError, Global};

/// The messages of a part, in their order. It fails only where memory runs out.
pub(crate) fn gather(
    alloc: Global,
    frames: &[Frame],
    parts: &[u32],
    part: usize,
) -> Result<Vec<Frame>, AllocError>
    requires { length parts.now ≡ length frames.now }
    ensures own { IfOk result (λ own. own.items ≡ bodies_of part parts.now frames.now) }
    ensures few { IfOk result (λ own. length own.items ≤ length frames.now) }
{
    let mut own = Vec::new(alloc);
    for index in 0..frames.len() {
        let owner = parts[index] as usize;
        if owner == part {
            own.push(frames[index])?;
        }
    }
    Ok(own)
}
