ghost use Rattle.std.specs.Prelude.{◌≡◌, ◌≤◌, ℕ, List, IfErr, IfOk, OnOk, length, map};
ghost use Rattle.std.specs.List.{All};
ghost use Rattle.file_batch.specs.Words.{IsBlockReplyFileOf, IsThere};
ghost use Rattle.issuer_rows.specs.declared.frame.Frame.{Frame};
ghost use Rattle.app_jobs.specs.BlockFaults.{IsBlockRepliesFault};
ghost use Rattle.log_replay.specs.Blocks.{AreBlocksOf};
ghost use Rattle.log_replay.specs.Logged.{IsLogOfMessages, book_digest};
ghost use Rattle.log_commands.specs.Audited.{IsAudited, IsAuditRefusal, IsUnread};
ghost use Rattle.log_commands.specs.Names.{names_of};

use crate::claiming::claim_audited;
use crate::command_fault::CommandFault;
use crate::locked_input::LockedInput;
use crate::locked_log::LockedLog;
use crate::locked_logs::LockedLogs;
use crate::log_names::LogNames;
use app_audit::{BlockAudit, audit_blocks};
use app_jobs::{JobFault, open_book};
use book_text::digest_of_book;
use file_blocks::read_block_replies;
use file_devices::Files;
use file_laws::BatchFault;
use issuer_rows::{Book, Frame, ReplyBody};
use log_replay::{measure_log, read_log_blocks};
use std::alloc::Global;
use std::sync::Wait;
use std::thread::Threads;

/// Whether the files of replies and of the new book hold what deciding the messages of a log on its opening book comes to; else what differs
/// first. It fails with the first fault of book, log, replies and new book, in this order; where a file is in use, or a call on one fails;
/// or where memory runs out.
pub fn audit_log_files<R: Threads + Wait + Sync, F: Files, L: LockedLogs>(
    rt: &R,
    alloc: Global,
    files: &F,
    logs: &L,
    names: &LogNames<'_>,
) -> Result<BlockAudit, CommandFault>
    ensures audited { IfOk result (IsAudited (F.is_known files.now) (F.holds files.now) (L.holds logs.now) (names_of names.now)) }
    ensures fault { IfErr result (IsAuditRefusal (L.holds logs.now) (L.reading logs.now) (L.in_use logs.now) (F.holds files.now) (F.failing files.now) (names_of names.now)) }
{
    let _claims = claim_audited(alloc, files, names)?;
    let book = open_book(rt, alloc, files, names.book)?;
    let log = logs.open(names.log)?;
    let blocks = open_blocks(alloc, &log, &book)?;
    let replies = open_replies(alloc, files, names.replies)?;
    let after = open_book(rt, alloc, files, names.new_book)?;
    Ok(audit_blocks(alloc, &book, &blocks, &replies, &after)?)
}

// The messages of a log, in blocks of 65,536, where it is this book's.
fn open_blocks<L: LockedLog>(
    alloc: Global,
    log: &L,
    book: &Book,
) -> Result<Vec<Vec<Frame>>, CommandFault>
    ensures blocks { IfOk result (λ blocks. (messages : List Frame) × AreBlocksOf messages (map (λ block. block.items) blocks.items)
        × (L.is_known log.now → IsLogOfMessages (book_digest book.now) (L.bytes log.now) messages)) }
    ensures count { IfOk result (λ blocks. length blocks.items ≤ 1000) }
    ensures each { IfOk result (λ blocks. All (λ block. length block.items ≤ 65536) blocks.items) }
    ensures fault { IfErr result (IsUnread (L.is_known log.now) (L.may_fail log.now) (L.bytes log.now) book.now) }
{
    let digest = digest_of_book(alloc, book)?;
    let size = measure_log(alloc, LockedInput::new(log), &digest)?;
    let blocks = read_log_blocks(alloc, LockedInput::new(log), &digest, size)?;
    Ok(blocks)
}

// The replies of the blocks of the file of this name. A device that fails is an unreadable file.
fn open_replies<F: Files>(
    alloc: Global,
    files: &F,
    name: &str,
) -> Result<Vec<Vec<ReplyBody>>, JobFault>
    ensures there { OnOk result (F.is_known files.now → IsThere (F.holds files.now) name.now) }
    ensures fault { IfErr result (IsBlockRepliesFault (F.holds files.now) (F.failing files.now) name.now) }
    ensures replies { (bytes : List ℕ) → F.holds files.now name.now bytes → IfOk result (λ replies. IsBlockReplyFileOf bytes (map (λ block. block.items) replies.items)) }
{
    let mut input = files.open(name)?;
    match read_block_replies(alloc, &mut input) {
        Ok(replies) => Ok(replies),
        Err(BatchFault::Device) => Err(JobFault::Unreadable),
        Err(fault) => Err(JobFault::Batch(fault)),
    }
}
