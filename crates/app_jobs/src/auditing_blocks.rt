ghost use Rattle.std.specs.Prelude.{◌≤◌, ℕ, List, IfOk, IfErr, OnOk, length};
ghost use Rattle.std.specs.List.{All};
ghost use Rattle.file_blocks.specs.BlockFiles.{frames_of, replies_of};
ghost use Rattle.file_batch.specs.Words.{IsBlockFileOf, IsBlockReplyFileOf, IsThere, names_of};
ghost use Rattle.app_jobs.specs.AuditedBlocks.{AreAnswersAudited, AreBlocksAudited};
ghost use Rattle.app_jobs.specs.BlockFaults.{IsBlockAnswersFault, IsBlockAuditingFault, IsBlockFileFault, IsBlockRepliesFault};

use crate::job_fault::JobFault;
use crate::opening::open_book;
use app_audit::{BlockAudit, audit_blocks};
use file_blocks::{read_block_replies, read_blocks};
use file_devices::{BatchNames, Files};
use file_laws::BatchFault;
use issuer_rows::{Book, Frame, ReplyBody};
use std::alloc::Global;
use std::sync::Wait;
use std::thread::Threads;

/// Whether the files of replies and of the new book hold what deciding the blocks of a block file on the book comes to; else what differs
/// first. It fails with the first fault of book, block file, replies and new book, in this order; where a call on a file fails; or where
/// memory runs out.
pub fn audit_block_files<R: Threads + Wait + Sync, F: Files>(
    rt: &R,
    alloc: Global,
    files: &F,
    names: &BatchNames,
) -> Result<BlockAudit, JobFault>
    ensures audited { IfOk result (AreBlocksAudited (F.is_known files.now) (F.holds files.now)
        (names_of names.now)) }
    ensures fault { IfErr result (IsBlockAuditingFault (F.holds files.now) (F.failing files.now)
        (names_of names.now)) }
{
    let book = open_book(rt, alloc, files, names.book.as_str())?;
    let blocks = open_blocks(alloc, files, names.batch.as_str())?;
    audit_answers(rt, alloc, files, names, &book, &blocks)
}

// Whether the files of replies and of the new book hold what deciding these blocks on this book comes to. They are read in this order.
fn audit_answers<R: Threads + Wait + Sync, F: Files>(
    rt: &R,
    alloc: Global,
    files: &F,
    names: &BatchNames,
    book: &Book,
    blocks: &[Vec<Frame>],
) -> Result<BlockAudit, JobFault>
    requires count { length blocks.now ≤ 1000 }
    requires each { All (λ block. length block.items ≤ 65536) blocks.now }
    ensures audited { IfOk result (AreAnswersAudited (F.is_known files.now) (F.holds files.now) (names_of names.now) book.now (frames_of blocks.now)) }
    ensures fault { IfErr result (IsBlockAnswersFault (F.holds files.now) (F.failing files.now) (names_of names.now)) }
{
    let replies = open_block_replies(alloc, files, names.replies.as_str())?;
    let after = open_book(rt, alloc, files, names.new_book.as_str())?;
    Ok(audit_blocks(alloc, book, blocks, &replies, &after)?)
}

// The blocks of the block file of this name.
fn open_blocks<F: Files>(alloc: Global, files: &F, name: &str) -> Result<Vec<Vec<Frame>>, JobFault>
    ensures count { IfOk result (λ blocks. length blocks.items ≤ 1000) }
    ensures each { IfOk result (λ blocks. All (λ block. length block.items ≤ 65536) blocks.items) }
    ensures there { OnOk result (F.is_known files.now → IsThere (F.holds files.now) name.now) }
    ensures fault { IfErr result (IsBlockFileFault (F.holds files.now) (F.failing files.now) name.now) }
    ensures blocks { (bytes : List ℕ) → F.holds files.now name.now bytes → IfOk result (λ blocks. IsBlockFileOf bytes (frames_of blocks.items)) }
{
    let mut input = files.open(name)?;
    match read_blocks(alloc, &mut input) {
        Ok(blocks) => Ok(blocks),
        Err(fault) => Err(JobFault::Batch(fault)),
    }
}

// The replies of the blocks of the file of this name. A device that fails is an unreadable file.
fn open_block_replies<F: Files>(
    alloc: Global,
    files: &F,
    name: &str,
) -> Result<Vec<Vec<ReplyBody>>, JobFault>
    ensures there { OnOk result (F.is_known files.now → IsThere (F.holds files.now) name.now) }
    ensures fault { IfErr result (IsBlockRepliesFault (F.holds files.now) (F.failing files.now) name.now) }
    ensures replies { (bytes : List ℕ) → F.holds files.now name.now bytes → IfOk result (λ replies. IsBlockReplyFileOf bytes (replies_of replies.items)) }
{
    let mut input = files.open(name)?;
    match read_block_replies(alloc, &mut input) {
        Ok(replies) => Ok(replies),
        Err(BatchFault::Device) => Err(JobFault::Unreadable),
        Err(fault) => Err(JobFault::Batch(fault)),
    }
}
