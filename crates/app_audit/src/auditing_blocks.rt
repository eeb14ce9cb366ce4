//! Auditing blocks of bodies, which are decided one after another.

ghost use Rattle.std.specs.Prelude.{◌≡◌, ◌≤◌, ◌↔◌, List, length, map, IfOk, IfSome, IfNone, IsTrue};
ghost use Rattle.std.specs.List.{All};
ghost use Rattle.file_laws.specs.Blocks.{replies_to_blocks, rows_after_blocks};
ghost use Rattle.issuer_words.specs.Words.{ReplyBody, replies_to, rows_after};
ghost use Rattle.app_audit.specs.Blocks.{FindsInBlocks, counts};
ghost use Rattle.app_audit.specs.Difference.{IsFirstDifference};

use crate::block_audit::BlockAudit;
use crate::comparing::{first_differing_reply, least_differing_row};
use issuer_fold::Prefix;
use issuer_rows::{Book, Frame, ReplyBody};
use issuer_rules::decide_all;
use std::alloc::{AllocError, Global};

/// Whether these are the replies to each block, and this is the book after all of them, that deciding the bodies of all blocks one after
/// another on the first book gives. Else what differs first: the number of blocks or of one's replies, then the least place of a reply,
/// then the least key of a row. It fails only where memory runs out.
pub fn audit_blocks(
    alloc: Global,
    book: &Book,
    blocks: &[Vec<Frame>],
    replies: &[Vec<ReplyBody>],
    after: &Book,
) -> Result<BlockAudit, AllocError>
    requires blocks { length blocks.now ≤ 1000 }
    requires frames { All (λ block. length block.items ≤ 65536) blocks.now }
    ensures { IfOk result (FindsInBlocks (map (λ block. block.items) replies.now) after.now (replies_to_blocks book.now (map (λ block. block.items) blocks.now)) (rows_after_blocks book.now (map (λ block. block.items) blocks.now))) }
{
    if !have_same_counts(blocks, replies) {
        return Ok(BlockAudit::CountDiffers);
    }
    let mut right = book.copy()?;
    for block in 0..blocks.len() {
        let (decided, differing) = decided_block(alloc, right, &blocks[block], &replies[block])?;
        if let Some(index) = differing {
            let block = block as u32;
            return Ok(BlockAudit::ReplyDiffers { block, index });
        }
        right = decided;
    }
    compared_after(alloc, after, &right)
}

/// The book after a block that is decided on this one, and the place of the first reply that isn't the right one.
fn decided_block(
    alloc: Global,
    book: Book,
    frames: &[Frame],
    replies: &[ReplyBody],
) -> Result<(Book, Option<u32>), AllocError>
    requires few { length frames.now ≤ 65536 }
    requires count { length replies.now ≡ length frames.now }
    ensures book { IfOk result (λ found. found.0 ≡ rows_after book frames.now) }
    ensures some { IfOk result (λ found. IfSome found.1 (IsFirstDifference replies.now (replies_to book frames.now))) }
    ensures none { IfOk result (λ found. IfNone found.1 (replies.now ≡ replies_to book frames.now)) }
{
    let prefix = decide_all(alloc, Prefix::new(alloc, book), frames)?;
    let differing = first_differing_reply(replies, &prefix.replies);
    Ok((prefix.book, differing))
}

/// What differs first where all replies are the right ones: the least key of a row, if any.
fn compared_after(alloc: Global, after: &Book, right: &Book) -> Result<BlockAudit, AllocError>
    ensures { IfOk result (λ found. (replies : List (List ReplyBody)) → FindsInBlocks replies after.now replies right.now found) }
{
    match least_differing_row(alloc, after, right)? {
        Some(key) => Ok(BlockAudit::BookDiffers(key)),
        None => Ok(BlockAudit::Same),
    }
}

/// Whether there are as many blocks of replies as of bodies, and as many replies in each as bodies.
fn have_same_counts(blocks: &[Vec<Frame>], replies: &[Vec<ReplyBody>]) -> bool
    ensures { IsTrue result ↔ (counts (map (λ block. block.items) blocks.now) ≡ counts (map (λ block. block.items) replies.now)) }
{
    blocks.len() == replies.len()
        && blocks
            .iter()
            .zip(replies)
            .all(|(block, replies)| block.len() == replies.len())
}
