ghost use Rattle.std.specs.Prelude.{◌≡◌, ◌≢◌, ◌++◌, List, ℕ, IfNone, IfOk, IfSome};
ghost use Rattle.app_parts_folder.specs.PlanTexts.{decided_head, decided_text};

use crate::fields::add_number;
use std::alloc::{AllocError, Global};

/// The bytes of the file that says that a part is decided: its number, and the digests of its plan, its replies and its new book.
/// Memory can run out.
pub fn decided_text(
    alloc: Global,
    part: u32,
    plan: &[u8; 32],
    replies: &[u8; 32],
    new_book: &[u8; 32],
) -> Result<Vec<u8>, AllocError>
    ensures { IfOk result (λ text. text.items ≡ decided_text part plan.now replies.now new_book.now) }
{
    let mut text = decided_head(alloc, part, plan)?;
    text.extend_from_slice(replies)?;
    text.extend_from_slice(new_book)?;
    Ok(text)
}

// The beginning of that file.
fn decided_head(alloc: Global, part: u32, plan: &[u8; 32]) -> Result<Vec<u8>, AllocError>
    ensures { IfOk result (λ head. head.items ≡ decided_head part plan.now) }
{
    let mut head = Vec::new(alloc);
    head.extend_from_slice(b"I83D\x00\x01")?;
    add_number(&mut head, part)?;
    head.extend_from_slice(plan)?;
    Ok(head)
}

/// The digests behind the beginning of that file, as its bytes. `None` where the bytes don't begin as the file of this part and this plan.
pub fn behind_decided_head<'a>(
    alloc: Global,
    part: u32,
    plan: &[u8; 32],
    bytes: &'a [u8],
) -> Result<Option<&'a [u8]>, AllocError>
    ensures some { IfOk result (λ read. IfSome read (λ behind. bytes.now ≡ decided_head part plan.now ++ behind.now)) }
    ensures none { IfOk result (λ read. IfNone read ((behind : List ℕ) → bytes.now ≢ decided_head part plan.now ++ behind)) }
{
    let head = decided_head(alloc, part, plan)?;
    let own = head.as_slice();
    if bytes.len() < own.len() {
        return Ok(None);
    }
    let (front, behind) = bytes.split_at(own.len());
    if front == own {
        Ok(Some(behind))
    } else {
        Ok(None)
    }
}
