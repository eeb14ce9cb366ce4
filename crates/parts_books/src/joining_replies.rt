ghost use Rattle.std.specs.Prelude.{◌≡◌, ◌≢◌, ◌+◌, ◌<◌, ℕ, List, [], drop, length, map, slice_get, slice_index, slice_set, None, Some, Ok, IfOk, IfSome, IsTrue, IsFalse};
ghost use Rattle.engine_parts.specs.Decided.{list_at};
ghost use Rattle.issuer_rows.specs.declared.reply_body.ReplyBody.{ReplyBody as Reply};
ghost use Rattle.parts_books.specs.PartBooks.{AreInArrivalOrder};

use issuer_rows::ReplyBody;
use std::alloc::{AllocError, Global};

/// The replies of all parts in the order of arrival: each message's is the next one of its part. None where a part has more replies than
/// messages, or fewer. It fails only where memory runs out.
pub fn join_replies(
    alloc: Global,
    parts: &[u32],
    replies: &[Vec<ReplyBody>],
) -> Result<Option<Vec<ReplyBody>>, AllocError>
    ensures joined { IfOk result (λ joined. IfSome joined (λ all. AreInArrivalOrder parts.now (map (λ list. list.items) replies.now) all.items)) }
    ensures none { result ≡ Ok None → (all : List Reply) → AreInArrivalOrder parts.now (map (λ list. list.items) replies.now) all → ⊥ }
{
    let mut next = vec![in alloc; 0usize; replies.len()]?;
    let mut ordered = Vec::with_capacity(alloc, parts.len())?;
    for part in parts {
        let Some(reply) = take_next(replies, &mut next, *part as usize) else {
            return Ok(None);
        };
        ordered.push(*reply)?;
    }
    if !are_read(replies, &next) {
        return Ok(None);
    }
    Ok(Some(ordered))
}

// The next reply of a part, if it has one that wasn't read.
fn take_next<'a>(
    replies: &'a [Vec<ReplyBody>],
    next: &mut Vec<usize>,
    part: usize,
) -> Option<&'a ReplyBody>
    requires { length next.old.items ≡ length replies.now }
    ensures within { IfSome result (λ reply. part < length next.old.items) }
    ensures next { IfSome result (λ reply. slice_get (list_at (map (λ list. list.items) replies.now) part) (slice_index next.old.items part) ≡ Some reply.now) }
    ensures behind { IfSome result (λ reply. next.new.items ≡ slice_set next.old.items part (slice_index next.old.items part + 1)) }
    ensures none { result ≡ None → drop (slice_index next.old.items part) (list_at (map (λ list. list.items) replies.now) part) ≡ [] }
{
    let list = replies.get(part)?;
    let place = next[part];
    let reply = list.get(place)?;
    next[part] = place + 1;
    Some(reply)
}

// Whether all replies are read.
fn are_read(replies: &[Vec<ReplyBody>], next: &[usize]) -> bool
    requires { length next.now ≡ length replies.now }
    ensures yes { IsTrue result → (part : ℕ) → drop (slice_index next.now part) (list_at (map (λ list. list.items) replies.now) part) ≡ [] }
    ensures no { IsFalse result → (part : ℕ) × (drop (slice_index next.now part) (list_at (map (λ list. list.items) replies.now) part) ≢ []) }
{
    for part in 0..replies.len() {
        if next[part] < replies[part].len() {
            return false;
        }
    }
    true
}
