ghost use Rattle.std.specs.Prelude.{◌≡◌, ◌≢◌, ℕ, List, Some, None, Ok, IfOk, IfErr, OnOk, string_bytes};
ghost use Rattle.book_laws.specs.Reading.{reading};
ghost use Rattle.book_laws.specs.Text.{book_text};
ghost use Rattle.file_blocks.specs.BlockDecider.{IsBlockDecider};
ghost use Rattle.file_batch.specs.Words.{AreAsTheyWere, IsAsItWas, IsThere, names_of};
ghost use Rattle.app_jobs.specs.Deciding.{DecidesBlockFiles, PutsAnswer};
ghost use Rattle.app_jobs.specs.DecidedBlocks.{AreBlocksAnswered, AreFirstAnswered};
ghost use Rattle.app_jobs.specs.BlockFaults.{IsBlocksReplyingFault};
ghost use Rattle.app_jobs.specs.Faults.{MayNotBeAnswered};

use crate::admitting::admit;
use crate::block_count::BlockCount;
use crate::halt::Halt;
use crate::job_fault::JobFault;
use crate::opening::open_book;
use crate::placing::put_answer;
use crate::writing::write_book;
use file_batch::Strictness;
use file_blocks::{BlocksOutcome, Halted, process_blocks};
use file_devices::{BatchNames, Files};
use issuer_fold::InPlace;
use issuer_rows::{Book, Frame};
use std::alloc::{AllocError, Global};
use std::sync::Wait;
use std::thread::Threads;

/// Decides the blocks of one file on the book of another, each on the book after those before it, and puts the replies and the new book
/// in place. `decide` has to change the book into the one after a block. Where a block can't be read, decided or answered, the blocks
/// before it are kept: the new book is the one after them. After any other fault all files are as they were; after each, where blocks are
/// refused that have bodies that are no message.
pub fn decide_blocks<
    R: Threads + Wait + Sync,
    F: Files,
    E: Fn(&mut Book, &[Frame]) -> Result<InPlace, AllocError>,
>(
    rt: &R,
    alloc: Global,
    files: &mut F,
    names: &BatchNames,
    strictness: Strictness,
    decide: &E,
) -> Result<BlockCount, Halt>
    // It may be called with a block, and decides it in place.
    requires decider { IsBlockDecider E.pre E.post (λ book. book.now) (λ frames. frames.now) decide.now }
    ensures decides { DecidesBlockFiles F.is_known F.holds F.failing strictness files.old files.new (names_of names.now) result }
{
    let book = open_book(rt, alloc, files, names.book.as_str())?;
    let (processed, replies) = answer_blocks(alloc, files, names, book, decide)?;
    match processed {
        Ok(outcome) => {
            admit(strictness, outcome.messages)?;
            put_blocks(rt, alloc, files, names, replies, &outcome.book)?;
            Ok(BlockCount {
                blocks: outcome.blocks,
                messages: outcome.messages,
            })
        }
        Err(halted) => match strictness {
            Strictness::Lenient => Err(keep_blocks(rt, alloc, files, names, replies, &halted)),
            Strictness::Strict => Err(Halt::from(JobFault::Batch(halted.fault))),
        },
    }
}

// Decides the blocks on a book, and writes their replies. Where not all are kept, it returns which are.
fn answer_blocks<F: Files, E: Fn(&mut Book, &[Frame]) -> Result<InPlace, AllocError>>(
    alloc: Global,
    files: &F,
    names: &BatchNames,
    book: Book,
    decide: &E,
) -> Result<(Result<BlocksOutcome, Halted>, F::Output), JobFault>
    requires decider { IsBlockDecider E.pre E.post (λ book. book.now) (λ frames. frames.now) decide.now }
    ensures there { IfOk result (λ processed. F.is_known files.now → IsThere (F.holds files.now) (string_bytes names.now.batch)) }
    ensures known { IfOk result (λ processed. F.is_known files.now → F.Output.is_known processed.1) }
    ensures ok { IfOk result (λ processed. IfOk processed.0 (λ outcome. AreBlocksAnswered (F.is_known files.now) (F.holds files.now)
        (string_bytes names.now.batch) book outcome.book outcome.blocks outcome.messages (F.Output.written processed.1))) }
    ensures some { IfOk result (λ processed. IfErr processed.0 (λ halted. AreFirstAnswered (F.is_known files.now) (F.holds files.now)
        (string_bytes names.now.batch) book halted.book halted.fault halted.blocks ((F.failing files.now).writing (string_bytes names.now.replies)) (F.Output.written processed.1))) }
    ensures stopped { IfOk result (λ processed. IfErr processed.0 (λ halted. IsBlocksReplyingFault (F.holds files.now) (F.failing files.now) (names_of names.now)
        (JobFault.Batch halted.fault))) }
    ensures fault { IfErr result (IsBlocksReplyingFault (F.holds files.now) (F.failing files.now) (names_of names.now)) }
{
    let mut blocks = files.open(names.batch.as_str())?;
    let mut replies = files.create(names.replies.as_str())?;
    let processed = process_blocks(alloc, book, &mut blocks, &mut replies, decide);
    Ok((processed, replies))
}

// Puts the replies, and the book after the blocks, in place.
fn put_blocks<R: Threads + Wait + Sync, F: Files>(
    rt: &R,
    alloc: Global,
    files: &mut F,
    names: &BatchNames,
    replies: F::Output,
    book: &Book,
) -> Result<(), JobFault>
    ensures puts { PutsAnswer F.is_known F.holds (MayNotBeAnswered (F.failing files.old) (names_of names.now)) files.old files.new (names_of names.now)
        (F.Output.is_known replies → F.holds files.new (string_bytes names.now.replies) (F.Output.written replies))
        (F.holds files.new (string_bytes names.now.new_book) (book_text book.now)) result }
    // Its text is read again as the book.
    ensures back { OnOk result (reading (book_text book.now) ≡ Ok book.now) }
{
    let new_book = write_book(rt, alloc, files, names.new_book.as_str(), book)?;
    put_answer(alloc, files, names, replies, new_book)
}

// Puts the replies to the kept blocks, and the book after them, in place.
fn keep_blocks<R: Threads + Wait + Sync, F: Files>(
    rt: &R,
    alloc: Global,
    files: &mut F,
    names: &BatchNames,
    replies: F::Output,
    halted: &Halted,
) -> Halt
    ensures fault { result.fault ≡ JobFault.Batch halted.now.fault }
    ensures kept { (count : ℕ) → result.kept ≡ Some count → (count ≡ halted.now.blocks)
        × PutsAnswer F.is_known F.holds (MayNotBeAnswered (F.failing files.old) (names_of names.now)) files.old files.new (names_of names.now)
        (F.Output.is_known replies → F.holds files.new (string_bytes names.now.replies) (F.Output.written replies))
        (F.holds files.new (string_bytes names.now.new_book) (book_text halted.now.book)) (Ok tt) }
    ensures same { result.kept ≡ None → AreAsTheyWere (F.holds files.old) (F.holds files.new) }
    ensures others { (other : List ℕ) → other ≢ string_bytes names.now.replies → other ≢ string_bytes names.now.new_book
        → IsAsItWas (F.holds files.old) (F.holds files.new) other }
    ensures known { F.is_known files.old → F.is_known files.new }
{
    let fault = JobFault::Batch(halted.fault);
    match put_blocks(rt, alloc, files, names, replies, &halted.book) {
        Ok(()) => Halt {
            fault,
            kept: Some(halted.blocks),
        },
        Err(_) => Halt { fault, kept: None },
    }
}
